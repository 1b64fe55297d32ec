//! Lines with numbers.
ghost use Rattle.std.specs.Prelude.{◌≡◌, ◌++◌, codes, OnOk, OnErr, IfErr};
ghost use Rattle.std.specs.Fmt.{decimal};
ghost use Rattle.std.specs.Io.KnownBytes.{Appends};
ghost use Rattle.audit_text.specs.Writing.{WritesInPart};
ghost use Rattle.audit_cli_base.specs.Faults.{IsNoWordFault, IsUnwritten};

use crate::fault::CommandError;
use audit_text::{push_number, write_whole};
use std::alloc::{AllocError, Global};
use std::io::Write;

/// Writes a line with a word (which ends in a space) and a number.
pub fn write_number<W: Write>(
    alloc: Global,
    word: &[u8],
    number: u64,
    writer: &mut W,
) -> Result<(), CommandError>
    ensures written { OnOk result (Appends (W.contents writer.old) (W.contents writer.new)
        (word.now ++ decimal number ++ codes "\n")) }
    ensures part { OnErr result (WritesInPart (W.contents writer.old) (W.contents writer.new)
        (word.now ++ decimal number ++ codes "\n")) }
    ensures fault { IfErr result (IsUnwritten (W.contents writer.old) (W.contents writer.new)) }
    ensures words { IfErr result IsNoWordFault }
{
    let mut line = Vec::new(alloc);
    push_number(&mut line, word, number)?;
    line.extend_from_slice(b"\n")?;
    write_whole(writer, &line)?;
    Ok(())
}

// Replaces the contents of the buffer with the line of an export.
fn put_exported(line: &mut Vec<u8>, count: u64, size: u64) -> Result<(), AllocError>
    ensures { OnOk result (line.new.items
        ≡ codes "exported " ++ decimal count ++ codes " " ++ decimal size ++ codes "\n") }
{
    line.clear();
    push_number(line, b"exported ", count)?;
    push_number(line, b" ", size)?;
    line.extend_from_slice(b"\n")
}

/// Writes the line of an export: how many entries and bytes it has.
pub fn write_exported<W: Write>(
    alloc: Global,
    count: u64,
    size: u64,
    writer: &mut W,
) -> Result<(), CommandError>
    ensures written { OnOk result (Appends (W.contents writer.old) (W.contents writer.new)
        (codes "exported " ++ decimal count ++ codes " " ++ decimal size ++ codes "\n")) }
    ensures part { OnErr result (WritesInPart (W.contents writer.old) (W.contents writer.new)
        (codes "exported " ++ decimal count ++ codes " " ++ decimal size ++ codes "\n")) }
    ensures fault { IfErr result (IsUnwritten (W.contents writer.old) (W.contents writer.new)) }
    ensures words { IfErr result IsNoWordFault }
{
    let mut line = Vec::new(alloc);
    put_exported(&mut line, count, size)?;
    write_whole(writer, &line)?;
    Ok(())
}
