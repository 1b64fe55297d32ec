//! Measures what the store's layers cost. Figures are written to standard error, because they differ from run to run;
//! standard output is fixed.
//!
//! Arguments: three decimal numbers, of small events, of leaves and of frames. They may be followed by one of these
//! words, the name of a new file, and a number of events:
//!
//! - `store`: a store with this many events in the file.
//! - `sessions`: sessions over such a store.
//! - `export`: verifying an export of this many events.
//! - `large`: appending this many events with the longest payload, and verifying them.
#![tactic(auto)]

mod bare;
mod blocks;
mod exports;
mod figures;
mod flushes;
mod frames;
mod large;
mod leaves;
mod questions;
mod sessions;
mod stores;
mod streams;
mod times;

use anyhow::{Context, bail};
use std::env;

fn main(rt: HostRuntime) -> anyhow::Result<()> {
    let words: Vec<String> = env::args(&rt)?.skip(1).collect(rt.alloc())?;
    for (place, name) in ["blocks", "leaves", "frames"].iter().enumerate() {
        measure_layer(&rt, name, number_at(&words, place)?)?;
    }
    match words.get(3) {
        Some(name) => measure_file(&rt, name, word_at(&words, 4)?, number_at(&words, 5)?),
        None => Ok(()),
    }
}

fn measure_layer(rt: &HostRuntime, name: &str, size: u32) -> anyhow::Result<()> {
    let measured = match name {
        "blocks" => blocks::measure(rt, size),
        "leaves" => leaves::measure(rt, size),
        _ => frames::measure(rt, size),
    };
    measured?;
    println!(rt; "{name} measured")?;
    Ok(())
}

fn measure_file(rt: &HostRuntime, name: &str, file: &str, events: u32) -> anyhow::Result<()> {
    let measured = match name {
        "store" => stores::measure(rt, file, events),
        "sessions" => sessions::measure(rt, file, events),
        "export" => exports::measure(rt, file, events),
        "large" => large::measure(rt, file, events),
        _ => bail!("a store, sessions, an export or large events are wanted"),
    };
    measured?;
    println!(rt; "{name} measured")?;
    Ok(())
}

fn word_at(words: &[String], place: usize) -> anyhow::Result<&str> {
    match words.get(place) {
        Some(word) => Ok(word.as_str()),
        None => bail!("a word is missing"),
    }
}

fn number_at(words: &[String], place: usize) -> anyhow::Result<u32> {
    Ok(
        word_at(words, place)?
            .parse()
            .context("a decimal number is wanted")?,
    )
}
