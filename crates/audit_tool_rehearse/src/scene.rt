//! Playing the lines of a scene.
use crate::clients::play_clients;
use crate::cuts::try_cuts;
use crate::devices::play_devices;
use crate::failures::play_failures;
use crate::hostile::play_hostile;
use crate::lengths::try_lengths;
use crate::lists::play_lists;
use crate::serving::serve_scene;
use crate::stores::{Device, Start, TRIES, open_core, start_core};
use crate::subject::{Core, Store};
use crate::sweep::play_sweep;
use crate::texts::{bytes_of, number_of, text_of, two_numbers};
use anyhow::{Context, bail};
use audit_base::SESSIONS;
use audit_disk::Sectors;
use audit_server::Step;
use audit_store::StoreError;

/// The current core, if there is one.
#[derive(Drop)]
pub struct Scene {
    core: Option<Core<Device>>,
}

impl Scene {
    pub fn new() -> Scene {
        Scene { core: None }
    }

    /// Plays a line.
    pub fn play<R: AllocGlobal + Print>(&mut self, rt: &R, line: &str) -> anyhow::Result<()> {
        let (task, rest) = line.split_once(' ').unwrap_or((line, ""));
        match task {
            "#" => title(rt, line),
            "store" | "worn" | "first" | "open" => self.replace(rt, task, rest),
            "feed" | "end" | "drive" | "show" | "flush" => {
                let core = self.core.as_mut().context("there is no store")?;
                step(rt, core, task, rest)
            }
            _ => play_apart(rt, task, rest),
        }
    }

    // Replaces the scene's core.
    fn replace<R: AllocGlobal + Print>(
        &mut self,
        rt: &R,
        task: &str,
        rest: &str,
    ) -> anyhow::Result<()> {
        let core = match task {
            "open" => open(rt, self.core.take()),
            "first" => begin_first(rt, rest),
            _ => begin(rt, task, rest),
        };
        self.core = Some(core?);
        Ok(())
    }
}

fn title<R: Print>(rt: &R, line: &str) -> anyhow::Result<()> {
    println!(rt; "{line}")?;
    Ok(())
}

fn begin<R: AllocGlobal + Print>(rt: &R, task: &str, rest: &str) -> anyhow::Result<Core<Device>> {
    let (sectors, number) = two_numbers(rest)?;
    println!(rt; "{task} {sectors} {number}")?;
    let start = match task {
        "store" => Start::Failing(number),
        _ => Start::Worn(number),
    };
    start_core(rt.alloc(), sectors, start)
}

fn begin_first<R: AllocGlobal + Print>(rt: &R, rest: &str) -> anyhow::Result<Core<Device>> {
    println!(rt; "first {rest}")?;
    start_core(rt.alloc(), number_of(rest)?, Start::First)
}

// Prints what the store holds now and after reopening, and reopens it once more.
fn open<R: AllocGlobal + Print>(
    rt: &R,
    core: Option<Core<Device>>,
) -> anyhow::Result<Core<Device>> {
    let core = reopened(rt, "held", core.context("there is no store")?)?;
    reopened(rt, "opened", core)
}

// Prints what the store of a core holds, and opens its device again.
fn reopened<R: AllocGlobal + Print>(
    rt: &R,
    name: &str,
    core: Core<Device>,
) -> anyhow::Result<Core<Device>> {
    let disk = show_store(rt, name, core)?;
    open_core(rt.alloc(), disk.into_inner())
}

fn step<R: AllocGlobal + Print, D: Sectors>(
    rt: &R,
    core: &mut Core<D>,
    task: &str,
    rest: &str,
) -> anyhow::Result<()> {
    if task == "flush" {
        return flush(rt, core);
    }
    let (session, digits) = rest.split_once(' ').unwrap_or((rest, ""));
    let session = session_of(session)?;
    let piece = bytes_of(rt.alloc(), digits)?;
    step_session(rt, core, task, session, &piece)
}

// Plays a task that needs no store of the scene.
fn play_apart<R: AllocGlobal + Print>(rt: &R, task: &str, rest: &str) -> anyhow::Result<()> {
    match task {
        "lengths" => try_lengths(rt),
        "cuts" => try_cuts(rt, &bytes_of(rt.alloc(), rest)?),
        "lists" => play_lists(rt, number_of(rest)?),
        "hostile" => play_hostile(rt, rest),
        "devices" => play_devices(rt, rest),
        "sweep" => play_sweep(rt, rest),
        "clients" => play_clients(rt, rest),
        "failures" => play_failures(rt, rest),
        "serve" => serve_scene(rt, rest),
        _ => bail!("there is no such step: {task}"),
    }
}

fn session_of(word: &str) -> anyhow::Result<usize> {
    Ok(word.parse().context("a session is wanted")?)
}

fn step_session<R: AllocGlobal + Print, D: Sectors>(
    rt: &R,
    core: &mut Core<D>,
    task: &str,
    session: usize,
    piece: &[u8],
) -> anyhow::Result<()> {
    match task {
        "feed" => feed(rt, core, session, piece),
        "end" => end(rt, core, session),
        "drive" => drive_steps(rt, core, session, piece),
        "show" => show(rt, core, session),
        _ => bail!("there is no such step: {task}"),
    }
}

// Feeds a piece, and tries again if memory was refused.
fn feed<R: Print, D: Sectors>(
    rt: &R,
    core: &mut Core<D>,
    session: usize,
    piece: &[u8],
) -> anyhow::Result<()> {
    let mut rest = piece;
    for _ in 0..TRIES {
        let Err(fault) = core.feed(session, rest) else {
            return Ok(());
        };
        println!(rt; "refused {} taken {}", fault.error.name(), fault.taken)?;
        if fault.error != StoreError::Memory {
            return Ok(());
        }
        rest = rest.get(fault.taken..).unwrap_or(&[]);
    }
    bail!("memory is refused again and again")
}

fn end<R: Print, D: Sectors>(rt: &R, core: &mut Core<D>, session: usize) -> anyhow::Result<()> {
    for _ in 0..TRIES {
        let Err(error) = core.end(session) else {
            return Ok(());
        };
        println!(rt; "refused {}", error.name())?;
        if error != StoreError::Memory {
            return Ok(());
        }
    }
    bail!("memory is refused again and again")
}

fn flush<R: Print, D: Sectors>(rt: &R, core: &mut Core<D>) -> anyhow::Result<()> {
    for _ in 0..TRIES {
        let Err(error) = core.flush() else {
            return Ok(());
        };
        println!(rt; "refused {}", error.name())?;
        if error != StoreError::Memory {
            return Ok(());
        }
    }
    bail!("memory is refused again and again")
}

fn drive_steps<R: Print, D: Sectors>(
    rt: &R,
    core: &mut Core<D>,
    session: usize,
    piece: &[u8],
) -> anyhow::Result<()> {
    let session = session % SESSIONS;
    let steps = [
        Step::Feed { session, piece },
        Step::Flush,
        Step::End { session },
        Step::Flush,
    ];
    if let Err(fault) = core.drive(&steps) {
        println!(rt;
            "refused {} taken {} in step {}",
            fault.error.name(),
            fault.taken,
            fault.step
        )?;
    }
    Ok(())
}

fn show<R: AllocGlobal + Print, D: Sectors>(
    rt: &R,
    core: &mut Core<D>,
    session: usize,
) -> anyhow::Result<()> {
    let output = core.take_output(session);
    let text = text_of(rt.alloc(), &output)?;
    let end = if core.ended(session) { " ended" } else { "" };
    println!(rt; "{session} {text}{end}")?;
    Ok(())
}

// Prints what a core's store holds, and returns its device.
fn show_store<R: AllocGlobal + Print, D: Sectors + Drop>(
    rt: &R,
    name: &str,
    core: Core<D>,
) -> anyhow::Result<D> {
    let store = core.into_store();
    print_store(rt, name, &store)?;
    Ok(store.into_disk())
}

fn print_store<R: AllocGlobal + Print, D: Sectors>(
    rt: &R,
    name: &str,
    store: &Store<D>,
) -> anyhow::Result<()> {
    let commitment = store.commitment();
    let root = text_of(rt.alloc(), &commitment.root)?;
    let (end, generation, version) = (store.end(), store.generation(), store.version());
    println!(rt;
        "{name} {} {root} end {end} generation {generation} version {version}",
        commitment.count
    )?;
    Ok(())
}
