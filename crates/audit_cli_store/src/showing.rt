//! Showing the state of a store.
ghost use Rattle.std.specs.Prelude.{◌≡◌, ◌++◌, IfErr, OnOk, OnErr};
ghost use Rattle.std.specs.Io.KnownBytes.{Appends};
ghost use Rattle.audit_log.specs.declared.header.Header.{Header};
ghost use Rattle.audit_text.specs.Writing.{WritesInPart};
ghost use Rattle.audit_store.specs.Store.{active_header};
ghost use Rattle.audit_cli_base.specs.Faults.{IsNoWordFault, IsUnwritten};
ghost use Rattle.audit_cli_store.specs.Shown.{shown_lines, free_line, printed_state, IsStateOf};

use crate::show_form::ShowForm;
use audit_cli_base::CommandError;
use audit_cli_offline::push_state;
use audit_disk_model::Sectors;
use audit_log::Header;
use audit_proof::Commitment;
use audit_store::Store;
use audit_text::{push_number, put_line, write_whole};
use std::alloc::{AllocError, Global};
use std::io::Write;

/// What is shown of a store: what its header says, but for the key and the link.
#[derive(Clone, Copy)]
pub(crate) struct ShownState {
    commitment: Commitment,
    sectors: u64,
    end: u64,
    generation: u64,
    version: u16,
    is_closed: bool,
}

impl ShownState {
    /// That of an open store.
    fn of_store<D: Sectors>(store: &Store<D>) -> ShownState
        ensures { IsStateOf (active_header store.now) result }
    {
        ShownState {
            commitment: store.commitment(),
            sectors: store.sectors(),
            end: store.end(),
            generation: store.generation(),
            version: store.version(),
            is_closed: store.closed(),
        }
    }

    /// That of a store with this header.
    pub(crate) fn of_header(header: &Header) -> ShownState
        ensures { IsStateOf header.now result }
    {
        ShownState {
            commitment: Commitment {
                count: header.count,
                root: header.root,
            },
            sectors: header.sectors,
            end: header.end,
            generation: header.generation,
            version: header.version,
            is_closed: header.closed,
        }
    }
}

/// Writes the line of the commitment, then a line with the device's sectors, the end of the log, the generation, the
/// version of the format, and whether the log is closed. In the form `WithFree` a third line has the number of sectors
/// after the end of the log.
pub fn show<D: Sectors, W: Write>(
    alloc: Global,
    store: &Store<D>,
    form: ShowForm,
    writer: &mut W,
) -> Result<(), CommandError>
    ensures written { OnOk result (Appends (W.contents writer.old) (W.contents writer.new)
        (printed_state form (active_header store.now))) }
    ensures part { OnErr result (WritesInPart (W.contents writer.old) (W.contents writer.new)
        (printed_state form (active_header store.now))) }
    ensures fault { IfErr result (IsUnwritten (W.contents writer.old) (W.contents writer.new)) }
    ensures words { IfErr result IsNoWordFault }
{
    show_state(alloc, ShownState::of_store(store), form, writer)
}

/// Writes the same lines from what is shown.
pub(crate) fn show_state<W: Write>(
    alloc: Global,
    state: ShownState,
    form: ShowForm,
    writer: &mut W,
) -> Result<(), CommandError>
    ensures written { (header : Header) → IsStateOf header state
        → OnOk result (Appends (W.contents writer.old) (W.contents writer.new) (printed_state form header)) }
    ensures part { (header : Header) → IsStateOf header state
        → OnErr result (WritesInPart (W.contents writer.old) (W.contents writer.new) (printed_state form header)) }
    ensures fault { IfErr result (IsUnwritten (W.contents writer.old) (W.contents writer.new)) }
    ensures words { IfErr result IsNoWordFault }
{
    let mut lines = Vec::new(alloc);
    put_lines(&mut lines, state, form)?;
    write_whole(writer, &lines)?;
    Ok(())
}

// Replaces the contents of the buffer with the lines about a store.
fn put_lines(lines: &mut Vec<u8>, state: ShownState, form: ShowForm) -> Result<(), AllocError>
    ensures { (header : Header) → IsStateOf header state → OnOk result (lines.new.items ≡ printed_state form header) }
{
    put_state(lines, state)?;
    match form {
        ShowForm::State => Ok(()),
        ShowForm::WithFree => push_free(lines, state),
    }
}

// Appends the line with the number of free sectors.
fn push_free(lines: &mut Vec<u8>, state: ShownState) -> Result<(), AllocError>
    ensures { (header : Header) → IsStateOf header state
        → OnOk result (lines.new.items ≡ lines.old.items ++ free_line header) }
{
    push_number(lines, b"free ", state.sectors.saturating_sub(state.end))?;
    lines.extend_from_slice(b"\n")
}

#[tactic(auto, unfolding(crate::specs::Shown::shown_lines, audit_text::specs::NumberedLine::numbered_line))]
fn put_state(lines: &mut Vec<u8>, state: ShownState) -> Result<(), AllocError>
    ensures { (header : Header) → IsStateOf header state → OnOk result (lines.new.items ≡ shown_lines header) }
{
    let commitment = state.commitment;
    put_line(lines, b"commit ", commitment.count, &commitment.root)?;
    push_number(lines, b"sectors ", state.sectors)?;
    push_number(lines, b" end ", state.end)?;
    push_number(lines, b" generation ", state.generation)?;
    push_number(lines, b" version ", state.version as u64)?;
    lines.extend_from_slice(b" state ")?;
    push_state(lines, state.is_closed)?;
    lines.extend_from_slice(b"\n")
}
