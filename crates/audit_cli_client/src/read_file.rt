//! Reading a log on by the bookmark in a file.
ghost use Rattle.std.specs.Prelude.{◌≡◌, ◌⊎◌, ℕ, List, Option, Some, Err, IfOk, IfErr, IfSome, OnOk, MatchResult};
ghost use Rattle.audit_proof.specs.declared.commitment.Commitment.{Commitment};
ghost use Rattle.audit_verify.specs.State.{StateData};
ghost use Rattle.audit_verify.specs.Bookmark.{AreSoundParts, bookmark_text};
ghost use Rattle.audit_cli_base.specs.declared.fault.CommandError.{CommandError};
ghost use Rattle.audit_cli_base.specs.declared.fault.CommandError.TheVariants.{BadArgument};
ghost use Rattle.audit_cli_connection.specs.declared.fault.RemoteError.TheVariants.{Command, ReaderInUse};
ghost use Rattle.audit_cli_connection.specs.Faults.{IsNoBadArgument};
ghost use Rattle.audit_cli_connection.specs.ServerCalls.{AreNoKinds, HasBeginning, HasNoBeginning, IsUnfitReading};
ghost use Rattle.audit_cli_client.specs.NamedFiles.{files_named, HasBookmarkAt, HasNoBookmarkAt, IsNoBookmark};
ghost use Rattle.audit_cli_client.specs.NamedFiles.{IsReadFailure};
ghost use Rattle.audit_cli_witness.specs.Locking.{IsInUse, IsReaderUnlocked};

use crate::left_files::remove_left;
use crate::printed_file::PrintedFile;
use crate::read_error::{fault_of_reading, fault_of_unseen};
use crate::seen_files::SeenFiles;
use audit_cli_base::{CommandError, OutputFile, key_at};
use audit_cli_connection::{
    Dialing, LineEnd, Pace, ReadTask, RemoteError, connect, no_memory, socket_identity,
    without_words,
};
use audit_cli_offline::{Printing, VerifiedEnd, kinds_in_word, write_end_message, write_last_line};
use audit_cli_read::{BookmarkFile, EventOutlet};
use audit_cli_witness::{
    Locked, keep_alarm, lock_state, metadata_if_any, remove_made, witnessed_at,
};
use audit_disk::{FileIdentity, SystemFile, SystemFiles};
use audit_proof::Commitment;
use audit_text::{read_input, write_whole};
use audit_verify::{Bookmark, State, StateError, read_bookmark};
use audit_wire_ask::FallibleWrite;
use audit_wire_read::{Outlet, newest_under, read_on};
use std::alloc::Global;
use std::fs::{Files, Metadata};
use std::io::{BufReader, Read, Write};
use std::time::Clock;

/// Reads a log on from the bookmark in a file, prints its events, and keeps the bookmark after them. Meanwhile the file
/// with `.lock` after its name is locked, so that one program at a time reads by it. What contradicts the bookmark is
/// kept beside it.
pub(crate) fn read_by_file<
    F: SystemFiles + SeenFiles + Dialing + Clock,
    W: FallibleWrite,
    M: Write,
>(
    rt: &F,
    alloc: Global,
    task: ReadTask<'_>,
    output: &mut W,
    messages: &mut M,
) -> Result<(), RemoteError>
where
    F::File: SystemFile,
    ensures begun { OnOk result (HasBeginning (files_named F.File.facts F.File.remaining (F.is_no_file rt.now))
        task.entry) }
    ensures bad { result ≡ Err (Command BadArgument)
        → IsUnfitReading (files_named F.File.facts F.File.remaining (F.is_no_file rt.now)) task.entry }
    // The file is in use only if a call that locks it failed, and the seconds are over.
    ensures in_use { result ≡ Err ReaderInUse → IsInUse F.File.facts (F.dials rt.now).read task.entry.seconds }
{
    let printing = printing_asked(alloc, task)?;
    let socket = without_words(socket_identity(rt, task.socket))?;
    let name = format!(in alloc; "{}.lock", task.state)?;
    let locked = without_words(lock_reader(rt, &name, task.seconds))?;
    let done = read_locked(rt, alloc, socket, task, &name, &printing, output, messages);
    drop(locked);
    unless_in_use(done)
}

// The same while the lock is held. The file for it is removed.
fn read_locked<F: SystemFiles + SeenFiles + Dialing + Clock, W: FallibleWrite, M: Write>(
    rt: &F,
    alloc: Global,
    socket: FileIdentity,
    task: ReadTask<'_>,
    lock: &str,
    printing: &Printing,
    output: &mut W,
    messages: &mut M,
) -> Result<(), RemoteError>
where
    F::File: SystemFile,
    ensures begun { OnOk result (HasBeginning (files_named F.File.facts F.File.remaining (F.is_no_file rt.now))
        task.entry) }
    ensures bad { result ≡ Err (Command BadArgument)
        → HasNoBeginning (files_named F.File.facts F.File.remaining (F.is_no_file rt.now)) task.entry }
{
    remove_left(rt, alloc, task.state)?;
    let done = read_alone(rt, alloc, socket, task, printing, output);
    remove_made(rt, lock);
    match done {
        Ok(read) => without_words(print_end(alloc, task, read, output, messages)),
        Err(RemoteError::NotLed(error, Some(mut found))) => {
            found.is_kept = keep_alarm(rt, alloc, task.state, &found).is_ok();
            Err(RemoteError::NotLed(error, Some(found)))
        }
        Err(fault) => Err(fault),
    }
}

// The result of what is done while the lock is held: no fault of it means that the file is in use.
fn unless_in_use(done: Result<(), RemoteError>) -> Result<(), RemoteError>
    ensures free { result ≡ Err ReaderInUse → ⊥ }
    ensures same { ((done ≡ Err ReaderInUse) × (result ≡ Err (Command CommandError.File))) ⊎ (result ≡ done) }
{
    match done {
        Err(RemoteError::ReaderInUse) => Err(RemoteError::Command(CommandError::File)),
        done => done,
    }
}

// What was read.
#[derive(Clone, Copy)]
struct Reading {
    // Whether there was a new event.
    has_news: bool,
    // The number of all entries, and whether the last one closed the log.
    end: VerifiedEnd,
}

// What is printed, by the words for it.
fn printing_asked(alloc: Global, task: ReadTask<'_>) -> Result<Printing, RemoteError>
    ensures bad { result ≡ Err (Command BadArgument) → AreNoKinds task.entry.kinds }
    ensures fault { IfErr result (λ fault. (cause : CommandError) × (fault ≡ Command cause)) }
{
    let kinds = match task.kinds {
        Some(word) => match kinds_in_word(alloc, word.as_bytes())? {
            Some(kinds) => kinds,
            None => return Err(RemoteError::Command(CommandError::BadArgument)),
        },
        None => Vec::new(alloc),
    };
    Ok(Printing::new(task.form, kinds, 0))
}

fn lock_reader<F: SystemFiles + Dialing>(
    rt: &F,
    name: &str,
    seconds: u64,
) -> Result<Locked<F::File>, RemoteError>
where
    F::File: SystemFile,
    ensures failed { IfErr result (IsReaderUnlocked F.File.facts (F.dials rt.now).read seconds) }
{
    match lock_state(rt, name, seconds) {
        Err(RemoteError::StateInUse) => Err(RemoteError::ReaderInUse),
        other => other,
    }
}

fn read_alone<F: SystemFiles + SeenFiles + Dialing + Clock, W: FallibleWrite>(
    rt: &F,
    alloc: Global,
    socket: FileIdentity,
    task: ReadTask<'_>,
    printing: &Printing,
    output: &mut W,
) -> Result<Reading, RemoteError>
where
    F::File: SystemFile,
    ensures begun { OnOk result (HasBeginning (files_named F.File.facts F.File.remaining (F.is_no_file rt.now))
        task.entry) }
    ensures bad { result ≡ Err (Command BadArgument)
        → HasNoBeginning (files_named F.File.facts F.File.remaining (F.is_no_file rt.now)) task.entry }
{
    let found = metadata_if_any(rt, task.state)?;
    let is_new = found.is_none();
    let mark = bookmark_of(rt, alloc, task, found.as_ref())?;
    without_words(read_from(rt, alloc, socket, task, mark, is_new, printing, output))
}

// Reads on from a bookmark. If the file is new, it has none yet.
fn read_from<F: Files + Dialing + Clock, W: FallibleWrite>(
    rt: &F,
    alloc: Global,
    socket: FileIdentity,
    task: ReadTask<'_>,
    mark: Bookmark,
    is_new: bool,
    printing: &Printing,
    output: &mut W,
) -> Result<Reading, RemoteError> {
    let Bookmark { state, newest } = mark;
    let held = newest.unwrap_or(state.commitment());
    let witnessed = match task.under {
        Some(path) => Some(witnessed_at(rt, alloc, path)?),
        None => None,
    };
    let line = connect(rt, task.socket, task.seconds, Pace::Question)?;
    let mut to = LineEnd::of(&line);
    let mut from = BufReader::new(alloc, LineEnd::of(&line))?;
    let kept = kept_under(alloc, &mut to, &mut from, held, witnessed)?;
    let mut printed = PrintedFile::open(rt);
    printed.end_line(output)?;
    let file = BookmarkAt {
        rt,
        alloc,
        socket,
        path: task.state,
        printed,
    };
    let first = state.count();
    let mut outlet = EventOutlet::new(alloc, file, output, printing);
    match read_on(alloc, &mut to, &mut from, state, &kept, &mut outlet) {
        Ok(state) => {
            // Of a log without an entry nothing was kept, and the next run has STATE alone.
            if is_new && state.count() == first {
                outlet.keep(&state, &kept)?;
            }
            Ok(reading_to(first, &state))
        }
        Err(error) => Err(fault_of_reading(kept, error)),
    }
}

// The commitment that the newest one has to extend: that of the reader, or the newest under a witness.
fn kept_under<W: Write, R: Read>(
    alloc: Global,
    to: &mut W,
    from: &mut R,
    held: Commitment,
    witnessed: Option<Commitment>,
) -> Result<Commitment, RemoteError> {
    let Some(witnessed) = witnessed else {
        return Ok(held);
    };
    match newest_under(alloc, to, from, &held, &witnessed) {
        Ok(newest) => Ok(newest),
        Err(fault) => Err(fault_of_unseen(fault.held, fault.unseen)),
    }
}

fn reading_to(first: u64, state: &State) -> Reading {
    Reading {
        has_news: state.count() > first,
        end: VerifiedEnd {
            count: state.count(),
            closed: state.is_closed(),
        },
    }
}

// The bookmark from which it is read; where there is none, the start of the log with the first key in a file. A pipe or
// a device isn't opened: that might wait.
fn bookmark_of<F: SystemFiles + SeenFiles>(
    rt: &F,
    alloc: Global,
    task: ReadTask<'_>,
    found: Option<&Metadata>,
) -> Result<Bookmark, RemoteError>
where
    F::File: SystemFile,
    ensures begun { OnOk result (HasBeginning (files_named F.File.facts F.File.remaining (F.is_no_file rt.now))
        task.entry) }
    ensures bad { result ≡ Err (Command BadArgument)
        → HasNoBeginning (files_named F.File.facts F.File.remaining (F.is_no_file rt.now)) task.entry }
{
    match (found, task.first) {
        (Some(found), _) if !found.is_file() => Err(RemoteError::Command(CommandError::File)),
        (None, Some(first)) => {
            let key = key_at(rt, alloc, first)?;
            Ok(Bookmark {
                state: State::first(&key),
                newest: None,
            })
        }
        _ => bookmark_at(rt, alloc, task.state),
    }
}

fn bookmark_at<F: SystemFiles>(rt: &F, alloc: Global, path: &str) -> Result<Bookmark, RemoteError>
where
    F::File: SystemFile,
    ensures some { OnOk result (HasBookmarkAt F.File.facts F.File.remaining path.now) }
    ensures none { result ≡ Err (Command BadArgument) → HasNoBookmarkAt F.File.facts F.File.remaining path.now }
{
    let mut file = rt.open_to_read(path)?;
    bookmark_in(alloc, &mut file)
}

/// Reads the bookmark that is all of a file's bytes. Of the text that a run kept these are again the state and the
/// commitment that it kept. Errors: `BadArgument` if it is the text of none; a file fault; memory.
pub fn bookmark_in<R: Read>(alloc: Global, file: &mut R) -> Result<Bookmark, RemoteError>
    ensures read { IfOk result (λ mark. IfSome (R.remaining file.old)
        (λ text. text ≡ bookmark_text mark.state mark.newest)) }
    // No text of a bookmark is refused: what a run kept is read by the next one, unless reading fails.
    ensures only { (state : StateData) (newest : Option Commitment) → AreSoundParts state newest
        → R.remaining file.old ≡ Some (bookmark_text state newest)
        → MatchResult result (λ mark. (mark.state ≡ state) × (mark.newest ≡ newest)) IsReadFailure }
    ensures none { result ≡ Err (Command BadArgument) → IfSome (R.remaining file.old) IsNoBookmark }
{
    let text = read_input(alloc, file)?;
    match read_bookmark(alloc, &text) {
        Ok(mark) => Ok(mark),
        Err(StateError::Damaged) => Err(RemoteError::Command(CommandError::BadArgument)),
        Err(StateError::Memory) => Err(no_memory()),
    }
}

// The file of a bookmark at a path. Only its owner can read it.
#[derive(Drop)]
struct BookmarkAt<'a, R: Files> {
    rt: &'a R,
    alloc: Global,
    // The server's socket, which it doesn't replace.
    socket: FileIdentity,
    path: &'a str,
    // Where the events stand that it counts. They are synced first, so that a loss of power leaves out none.
    printed: PrintedFile<R::File>,
}

/// Nothing is known of its bytes.
impl<R: Files> BookmarkFile for BookmarkAt<'_, R> {
    ghost use Rattle.std.specs.Prelude.{None};

    ghost bytes = { λ _. None };

    fn replace(&mut self, text: &[u8]) -> Result<(), CommandError> {
        self.printed.sync()?;
        let mut made = OutputFile::create_private(self.rt, self.alloc, self.socket, self.path)?;
        match write_whole(&mut made, text) {
            Ok(()) => made.publish(self.rt),
            Err(fault) => {
                made.discard(self.rt);
                Err(CommandError::Lines(fault))
            }
        }
    }
}

// Ends the report of what was read, as a verification does: in the form `Events` with a line of the output, and in
// another one with a message.
fn print_end<W: FallibleWrite, M: Write>(
    alloc: Global,
    task: ReadTask<'_>,
    read: Reading,
    output: &mut W,
    messages: &mut M,
) -> Result<(), RemoteError> {
    if task.is_quiet && !read.has_news {
        return Ok(());
    }
    write_last_line(alloc, task.form, read.end, output)?;
    output.flush_text()?;
    Ok(write_end_message(alloc, task.form, read.end, messages)?)
}
