//! A rehearsal of sessions over stores in memory. Each line of standard input is a step of a scene. The answers to the
//! sessions are printed.
//!
//! - `store SECTORS CALLS`: makes a core over a new store, whose device fails once, after CALLS calls.
//! - `worn SECTORS COMMITS`: makes a core over a store without events that has generations left for COMMITS commits.
//! - `first SECTORS`: makes a core over a new store of the first version of the format.
//! - `feed SESSION HEX`, `end SESSION`, `flush`: one step.
//! - `drive SESSION HEX`: a list of steps: the piece, a flush, the end, and a flush.
//! - `show SESSION`: takes and prints the session's output, and prints whether the session has ended.
//! - `open`: prints what the store holds, reopens its device, and prints what it then holds.
//! - `cuts HEX`: feeds the bytes to new cores in all possible two and three pieces.
//! - `lists FIRST`: plays twenty random lists of steps from number FIRST on, and prints a digest of everything they
//!   produced.
//! - `hostile FIRST COUNT`: plays COUNT batches of streams from number FIRST on. Most of their frames are malformed or
//!   request what doesn't exist. Prints how many frames there were, how many of them were malformed, and a digest of
//!   everything they produced.
//! - `devices FIRST COUNT`: damages COUNT devices from number FIRST on, opens them, and appends an event to each that
//!   could be opened. Prints how many were opened, how many were refused with each number, and a digest of the
//!   outcomes and the devices.
//! - `sweep FIRST COUNT`: plays COUNT lists of steps from number FIRST on, drawn by a cipher. Their stores are
//!   reopened, exported, verified and replayed. Prints how many events they hold, how many were acknowledged, a digest
//!   of the roots, how many lists were replayed, and how many have more bytes than `replay` reads.
//! - `clients FIRST COUNT`: plays COUNT runs of a daemon in memory from number FIRST on, in each of which 40 clients
//!   come and go at random. Prints a digest of what the clients received, why they went, and what the stores hold.
//! - `failures NUMBER COUNT`: plays the clients of run NUMBER over COUNT devices, of which the first fails once at its
//!   first call, the next one at its second, and so on. It is an error if an acknowledged event is lost.
//! - `lengths`: reads an append and a membership proof for each length of a payload, and prints a digest of what was
//!   read.
//! - `serve CALLS READ READS WRITE WAITS HEX HEX`: serves two streams over a device that fails once, after CALLS
//!   calls. READ is the number of bytes of each read, READS how many reads succeed, and WRITE the number of bytes of
//!   each write. If WAITS is 1, a second read fails until something was written to the other stream.
#![tactic(auto)]

mod clients;
mod cuts;
mod devices;
mod failures;
mod hostile;
mod lengths;
mod lists;
mod plan;
mod random;
mod random_door;
mod replays;
mod scene;
mod serving;
mod stores;
mod streams;
mod subject;
mod sweep;
mod texts;
mod visitor;

use scene::Scene;

fn main(rt: HostRuntime) -> anyhow::Result<()> {
    let mut scene = Scene::new();
    for line in rt.lines(rt.alloc()) {
        let line = line?;
        scene.play(&rt, line.as_str())?;
    }
    Ok(())
}
