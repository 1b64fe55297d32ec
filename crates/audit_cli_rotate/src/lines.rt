//! The lines of a rotation.
ghost use Rattle.std.specs.Prelude.{◌≡◌, ◌++◌, codes, IfOk, IfErr, OnOk, OnErr};
ghost use Rattle.std.specs.Fmt.{decimal};
ghost use Rattle.std.specs.Io.KnownBytes.{Appends};
ghost use Rattle.audit_text.specs.Writing.{WritesInPart};
ghost use Rattle.audit_store.specs.Store.{active_header};
ghost use Rattle.audit_cli_base.specs.Faults.{IsUnwritten};
ghost use Rattle.audit_cli_rotate.specs.Lines.{rotated_lines, formatted_line};

use audit_cli_base::CommandError;
use audit_disk_model::Sectors;
use audit_store::Store;
use audit_text::{push_ack, push_number, put_line, write_whole};
use std::alloc::{AllocError, Global};
use std::io::Write;

/// Writes the lines that closing the old log, formatting the new store and appending its first event print.
pub(crate) fn write_rotated<O: Sectors, N: Sectors, W: Write>(
    alloc: Global,
    old: &Store<O>,
    new: &Store<N>,
    writer: &mut W,
) -> Result<(), CommandError>
    ensures written { OnOk result (Appends (W.contents writer.old) (W.contents writer.new)
        (rotated_lines (active_header old.now) (active_header new.now))) }
    ensures part { OnErr result (WritesInPart (W.contents writer.old) (W.contents writer.new)
        (rotated_lines (active_header old.now) (active_header new.now))) }
    ensures fault { IfErr result (IsUnwritten (W.contents writer.old) (W.contents writer.new)) }
{
    let lines = lines_of(alloc, old, new)?;
    write_whole(writer, &lines)?;
    Ok(())
}

#[tactic(auto, unfolding(crate::specs::Lines::rotated_lines))]
fn lines_of<O: Sectors, N: Sectors>(
    alloc: Global,
    old: &Store<O>,
    new: &Store<N>,
) -> Result<Vec<u8>, AllocError>
    ensures { IfOk result (λ lines. lines.items ≡ rotated_lines (active_header old.now) (active_header new.now)) }
{
    let (closed, linked) = (old.commitment(), new.commitment());
    let mut lines = Vec::new(alloc);
    put_line(&mut lines, b"closed ", closed.count, &closed.root)?;
    push_formatted(&mut lines, new.sectors())?;
    let (count, root) = (linked.count, linked.root);
    push_ack(&mut lines, 0, count, &root)?;
    Ok(lines)
}

// Appends the line of a formatted device.
fn push_formatted(lines: &mut Vec<u8>, sectors: u64) -> Result<(), AllocError>
    ensures { OnOk result (lines.new.items ≡ lines.old.items ++ formatted_line sectors) }
{
    push_number(lines, b"formatted ", sectors)?;
    lines.extend_from_slice(b"\n")?;
    Ok(())
}
