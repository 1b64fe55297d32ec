//! The lines about what a search found.
ghost use Rattle.std.specs.Prelude.{◌≡◌, ◌++◌, OnOk, codes};
ghost use Rattle.std.specs.Fmt.{decimal};
ghost use Rattle.audit_chain.specs.EventData.{EventData};
ghost use Rattle.audit_link.specs.OpenedEntry.{event_in};
ghost use Rattle.audit_cli_offline.specs.ReportLines.{event_line};
ghost use Rattle.audit_cli_salvage.specs.Pieces.{heading, piece_line, missing_line, unbound_word, shown_line};

use audit_cli_offline::{OpenedEvent, ReportForm, write_opened};
use audit_store_salvage::Position;
use audit_text::{LinesError, push_number};
use std::alloc::{AllocError, Global};

/// Appends what stands before an entry that begins a piece: which entries are missing before it, and its index.
pub(crate) fn push_heading(
    line: &mut Vec<u8>,
    position: &Position,
    index: u64,
) -> Result<(), AllocError>
    ensures { OnOk result (line.new.items ≡ line.old.items ++ heading position.now index) }
{
    if position.sector > position.from {
        push_missing(line, position.next, index.saturating_sub(position.next))?;
        return push_piece(line, index);
    }
    if position.next == 0 {
        return push_piece(line, 0);
    }
    Ok(())
}

fn push_piece(line: &mut Vec<u8>, first: u64) -> Result<(), AllocError>
    ensures { OnOk result (line.new.items ≡ line.old.items ++ piece_line first) }
{
    push_number(line, b"piece ", first)?;
    line.extend_from_slice(b"\n")
}

/// Appends that entries are missing: the index of the first one, and their number.
pub(crate) fn push_missing(line: &mut Vec<u8>, first: u64, count: u64) -> Result<(), AllocError>
    ensures { OnOk result (line.new.items ≡ line.old.items ++ missing_line first count) }
{
    push_number(line, b"missing ", first)?;
    push_number(line, b" ", count)?;
    line.extend_from_slice(b"\n")
}

/// Appends an event, and whether it is bound to its place and shown by a proof.
pub(crate) fn push_found(
    alloc: Global,
    line: &mut Vec<u8>,
    index: u64,
    opened: &OpenedEvent,
    is_bound: bool,
    is_shown: bool,
) -> Result<(), LinesError>
    ensures { OnOk result (line.new.items ≡ line.old.items ++ unbound_word is_bound
        ++ event_line index (event_in opened.now) ++ shown_line is_shown index) }
{
    if !is_bound {
        line.extend_from_slice(b"unbound ")?;
    }
    write_opened(alloc, ReportForm::Events, index, opened, line)?;
    if is_shown {
        push_number(line, b"shown ", index)?;
        line.extend_from_slice(b"\n")?;
    }
    Ok(())
}
