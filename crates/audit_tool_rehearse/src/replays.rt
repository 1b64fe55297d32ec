//! Replays the events of a store: the output must be the lines of the store's entries and of its commitment.
use anyhow::bail;
use audit_chain::Event;
use audit_cli_store::replay;
use audit_proof::Commitment;
use audit_text::LinesError;
use hex::ToHex;
use std::alloc::Global;

/// Returns whether the events were replayed, which is false if their lines have more bytes than `replay` reads. It is
/// an error if they are refused otherwise, or if the output isn't the lines of these entries and this commitment.
pub fn is_replayed(
    alloc: Global,
    events: &[Event],
    entries: &[Vec<u8>],
    commitment: &Commitment,
) -> anyhow::Result<bool> {
    let input = input_of(alloc, events)?;
    let lines = lines_of(alloc, entries, commitment)?;
    is_replayed_as(alloc, input.as_bytes(), lines.as_bytes())
}

fn is_replayed_as(alloc: Global, input: &[u8], lines: &[u8]) -> anyhow::Result<bool> {
    let mut reader = input;
    let mut output = Vec::new(alloc);
    match replay(alloc, &mut reader, &mut output) {
        Ok(()) if output.as_slice() == lines => Ok(true),
        Ok(()) => bail!("a replay writes other lines than those of the store"),
        Err(LinesError::InputTooLong) => Ok(false),
        Err(fault) => Err(fault.into()),
    }
}

// The input of a replay: the key of zeros and the events.
fn input_of(alloc: Global, events: &[Event]) -> anyhow::Result<String> {
    let key: String = [0; 32].encode_hex(alloc)?;
    let mut input = format!(in alloc; "key {key}\n")?;
    for event in events {
        push_event(alloc, &mut input, event)?;
    }
    Ok(input)
}

fn push_event(alloc: Global, input: &mut String, event: &Event) -> anyhow::Result<()> {
    if event.payload().is_empty() {
        input.push_str(&format!(in alloc; "event {} -\n", event.kind())?)?;
        return Ok(());
    }
    push_line(
        alloc,
        input,
        "event",
        u64::from(event.kind()),
        event.payload(),
    )
}

// The lines of a store's entries and of its commitment.
fn lines_of(alloc: Global, entries: &[Vec<u8>], commitment: &Commitment) -> anyhow::Result<String> {
    let mut lines = String::new(alloc);
    for index in 0..entries.len() {
        push_line(alloc, &mut lines, "entry", index as u64, &entries[index])?;
    }
    push_line(
        alloc,
        &mut lines,
        "commit",
        commitment.count,
        &commitment.root,
    )?;
    Ok(lines)
}

// Adds a line of a word, a number and the hex digits of these bytes.
fn push_line(
    alloc: Global,
    lines: &mut String,
    word: &str,
    number: u64,
    bytes: &[u8],
) -> anyhow::Result<()> {
    let digits: String = bytes.encode_hex(alloc)?;
    lines.push_str(&format!(in alloc; "{word} {number} {digits}\n")?)?;
    Ok(())
}
