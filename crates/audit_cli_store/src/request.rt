//! The program's requests, and how they are carried out.
ghost use Rattle.std.specs.Prelude.{◌≡◌, Err};
ghost use Rattle.audit_cli_base.specs.Arguments.{RefusesWords};
ghost use Rattle.audit_cli_store.specs.OnFiles.{IsDoneOnFile};
ghost use Rattle.audit_cli_store.specs.Requests.{HasBadArgument, IsWordFault, IsReplayOf, IsCarriedOut};

use crate::answering::{StoreQuestion, answer_file, export_file, prove_file};
use crate::auditing::{Verification, check_file, verify_and_report};
use crate::closing::close_file;
use crate::header_showing::show_header;
use crate::link_checking::{LinkCheck, check_link_file};
use crate::making::format_site;
use crate::opening::{Opening, open_file};
use crate::replaying::replay;
use crate::show_form::ShowForm;
use audit_cli_base::{CommandError, FileDevice, Status, proof_request, report_end};
use audit_cli_offline::CheckForm;
use audit_disk::{SystemFile, SystemFiles};
use audit_disk_model::Sectors;
use std::alloc::Global;
use std::fs::Files;
use std::io::{Read, Write};

/// How a command that only answers opens the store.
#[derive(Clone, Copy)]
pub enum Access {
    /// Like every other command: opening repairs what a crash left unfinished.
    Repair,
    /// The file is opened without permission to write, and isn't changed.
    ReadOnly,
    /// As `ReadOnly`, and the entries of a damaged store that can still be read are written.
    Salvage,
}

/// Where a store is made.
#[derive(Clone, Copy)]
pub enum Site<'a> {
    /// In a new file, with these permissions if they are given.
    NewFile {
        /// Three octal digits.
        mode: Option<&'a str>,
    },
    /// In an existing file or block device.
    InPlace {
        /// Whether an existing store may be erased.
        erase: bool,
    },
}

/// A request to the program, with the words of the command line as given.
#[derive(Clone, Copy)]
pub enum Request<'a> {
    /// Seal the events of the input, and write the entries and their commitment.
    Replay,
    /// Format a file for a store.
    Format {
        /// The file.
        file: &'a str,
        /// Where the store is made.
        site: Site<'a>,
        /// The requested number of sectors.
        sectors: &'a str,
        /// The file with the first key.
        key_file: &'a str,
    },
    /// Close the log of the store in a file.
    Close {
        /// The file.
        file: &'a str,
    },
    /// Write the commitment of the store in a file, and the state of its log.
    Show {
        /// The file.
        file: &'a str,
        /// How it is opened.
        access: Access,
        /// What is written of it.
        form: ShowForm,
    },
    /// Write what the headers of the store in a file say, also while another program has it open.
    ShowHeader {
        /// The file.
        file: &'a str,
        /// What is written of it.
        form: ShowForm,
    },
    /// Check a proof against one commitment or two.
    Check {
        /// The file with the proof.
        proof: &'a str,
        /// The commitment, or the older one.
        older: &'a str,
        /// The newer commitment, for an incremental proof.
        newer: Option<&'a str>,
        /// What is written of an accepted proof.
        form: CheckForm,
    },
    /// Check a membership proof, and write the event of its entry.
    Open(Opening<'a>),
    /// Check a link against the commitments of two logs.
    CheckLink(LinkCheck<'a>),
    /// Write the entries of the store in a file to another file.
    Export {
        /// The file.
        file: &'a str,
        /// The file for the export, which is replaced; `-` for standard output. It can't be the store's.
        out: &'a str,
        /// How the store is opened.
        access: Access,
        /// The index of the first entry that is written; 0 if there is no word.
        from: Option<&'a str>,
    },
    /// Verify an export, and write its events.
    Verify(Verification<'a>),
    /// Make a proof about the store in a file, and write it to another file.
    Prove {
        /// The file.
        file: &'a str,
        /// `member` or `increment`.
        kind: &'a str,
        /// The event's index, or the older count.
        first: &'a str,
        /// The count, or the newer one.
        second: &'a str,
        /// The file for the proof, which is replaced; `-` for standard output. It can't be the store's.
        out: &'a str,
        /// How the store is opened.
        access: Access,
    },
}

/// Carries out a request. Lines that begin with `audit: ` are written to `messages`, all others to `output`, which is
/// flushed at the end. It returns the program's exit status.
pub fn run<F: SystemFiles, R: Read, W: Write, M: Write>(
    rt: &F,
    alloc: Global,
    request: Request<'_>,
    input: &mut R,
    output: &mut W,
    messages: &mut M,
) -> Status
where
    F::File: SystemFile,
    ensures { IsCarriedOut F.File.facts F.File.positioned ⟦<FileDevice<F::File> as Sectors>⟧ F.File.remaining
        request.entry (R.remaining input.old) (W.contents output.old) (W.contents output.new) result }
{
    let done = perform(rt, alloc, request, input, output, messages);
    report_end(done, output.flush(), messages)
}

fn perform<F: SystemFiles, R: Read, W: Write, M: Write>(
    rt: &F,
    alloc: Global,
    request: Request<'_>,
    input: &mut R,
    output: &mut W,
    messages: &mut M,
) -> Result<(), CommandError>
where
    F::File: SystemFile,
    ensures words { RefusesWords (IsWordFault request.entry) (W.contents output.old) (W.contents output.new) result }
    ensures only { result ≡ Err CommandError.BadArgument
        → HasBadArgument F.File.facts F.File.remaining request.entry }
    ensures replayed { IsReplayOf request.entry (R.remaining input.old) (W.contents output.old)
        (W.contents output.new) result }
    ensures done { IsDoneOnFile F.File.facts F.File.positioned ⟦<FileDevice<F::File> as Sectors>⟧ F.File.remaining
        request.entry (W.contents output.old) (W.contents output.new) result }
{
    match request {
        Request::Replay => Ok(replay(alloc, input, output)?),
        Request::Format {
            file,
            site,
            sectors,
            key_file,
        } => format_site(rt, alloc, file, site, sectors, key_file, output),
        Request::Close { file } => close_file(rt, alloc, file, output),
        Request::Show { file, access, form } => {
            answer_file(
                rt,
                alloc,
                file,
                access,
                StoreQuestion::State { form },
                output,
            )
        }
        Request::ShowHeader { file, form } => show_header(rt, alloc, file, form, output),
        Request::Check {
            proof,
            older,
            newer,
            form,
        } => check_file(rt, alloc, proof, older, newer, form, output),
        Request::Open(asked) => open_file(rt, alloc, asked, output, messages),
        Request::CheckLink(asked) => check_link_file(rt, alloc, asked, output),
        Request::Export {
            file,
            out,
            access,
            from,
        } => export_file(rt, alloc, file, access, from, out, output),
        Request::Verify(asked) => verify_and_report(rt, alloc, asked, output, messages),
        Request::Prove {
            file,
            kind,
            first,
            second,
            out,
            access,
        } => match proof_request(kind, first, second) {
            Some(asked) => prove_file(rt, alloc, file, access, asked, out, output),
            None => Err(CommandError::BadArgument),
        },
    }
}
