//! The line of a contradiction, as it is kept and as it is printed.
ghost use Rattle.std.specs.Prelude.{◌≡◌, ◌++◌, IfOk, OnOk};
ghost use Rattle.audit_cli_witness.specs.Alarm.{alarm_after, contradiction_text, judgment_word};

use crate::state_lines::push_commitment;
use audit_cli_connection::{Contradiction, push_date};
use audit_text::Shown;
use audit_wire_ask::ClientError;
use httpdate::HttpDate;
use std::alloc::{AllocError, Global};
use std::io::{self, Write};

/// The bytes that add the line of a contradiction to a file, whose last line may lack its line feed.
pub fn alarm_after(
    alloc: Global,
    lacks_feed: bool,
    date: Option<HttpDate>,
    found: &Contradiction,
) -> Result<Vec<u8>, AllocError>
    ensures { IfOk result (λ line. line.items ≡ alarm_after lacks_feed date found.now) }
{
    let mut line = Vec::new(alloc);
    if lacks_feed {
        line.push(b'\n')?;
    }
    push_date(&mut line, date)?;
    push_contradiction(&mut line, found)?;
    line.push(b'\n')?;
    Ok(line)
}

// What an error is, if it judges the log; otherwise no bytes.
fn judgment_word(error: ClientError) -> &'static str
    ensures { result.now ≡ judgment_word error }
{
    match error {
        ClientError::Shorter => "shorter",
        ClientError::OtherRoot => "other root",
        ClientError::NotAccepted => "not accepted",
        _ => "",
    }
}

fn push_contradiction(line: &mut Vec<u8>, found: &Contradiction) -> Result<(), AllocError>
    ensures { OnOk result (line.new.items ≡ line.old.items ++ contradiction_text found.now) }
{
    line.extend_from_slice(b" ")?;
    line.extend_from_slice(judgment_word(found.error).as_bytes())?;
    line.extend_from_slice(b": held ")?;
    push_commitment(line, &found.held)?;
    line.extend_from_slice(b", given ")?;
    push_commitment(line, &found.given)
}

/// Prints a contradiction: the server's socket, what it is, what the file of a witness or a reader holds, or that of the
/// witness under which it reads, and what the server gave. A second line says where that is kept, or that it isn't.
pub fn print_contradiction<M: Write>(
    alloc: Global,
    socket: &str,
    state: &str,
    under: Option<&str>,
    found: &Contradiction,
    messages: &mut M,
) -> io::Result<()> {
    let word = judgment_word(found.error);
    let mut line = Vec::new(alloc);
    write!(line, "audit: {}: {word}: {}", Shown(socket), Shown(state))?;
    if let Some(under) = under {
        write!(line, " or {}", Shown(under))?;
    }
    write!(line, " holds ")?;
    push_commitment(&mut line, &found.held)?;
    write!(line, ", the server gave ")?;
    push_commitment(&mut line, &found.given)?;
    if found.is_kept {
        write!(line, "\naudit: kept in {}.alarm\n", Shown(state))?;
    } else {
        write!(line, "\naudit: {}.alarm can't be written\n", Shown(state))?;
    }
    messages.write_all(&line)
}
