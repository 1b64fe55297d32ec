//! A program to be killed. It appends batches to a store in a file, and prints how many events are acknowledged after
//! each batch. Another run opens the store, reads each entry and prints how many there are.
//!
//! It can also stop a store in memory after each call of its device.
//!
//! Arguments: `format FILE`, `append FILE BATCHES`, `count FILE` or `stops`.
#![tactic(auto)]

mod stops;
mod stores;

use anyhow::{Context, bail};
use std::env;
use stops::try_stops;
use stores::{append, count, format};

fn main(rt: HostRuntime) -> anyhow::Result<()> {
    let mut words = env::args(&rt)?.skip(1);
    let Some(task) = words.next() else {
        println!(rt; "format FILE, append FILE BATCHES, count FILE, or stops")?;
        return Ok(());
    };
    if task.as_str() == "stops" {
        return try_stops(&rt);
    }
    let file = words.next().context("a file is wanted")?;
    match task.as_str() {
        "format" => format(&rt, &file),
        "append" => {
            let batches = words.next().context("a number of batches is wanted")?;
            let batches: u32 = batches.parse().context("a decimal number is wanted")?;
            append(&rt, &file, batches)
        }
        "count" => count(&rt, &file),
        _ => bail!("there is no such task"),
    }
}
