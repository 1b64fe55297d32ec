//! Questions to a server, whose answers are written to files.
ghost use Rattle.std.specs.Prelude.{◌≡◌, ◌⊎◌, ℕ, List, Option, true, Ok, Err, IsOk, IfOk, IfErr, OnOk};
ghost use Rattle.std.specs.Io.KnownBytes.{Appends};
ghost use Rattle.audit_text.specs.NumberedLine.{numbered_line};
ghost use Rattle.audit_proof.specs.declared.commitment.Commitment.{Commitment};
ghost use Rattle.audit_wire_ask.specs.declared.fault.ClientError.{ClientError};
ghost use Rattle.audit_wire_ask.specs.declared.putting.AskError.{AskError};
ghost use Rattle.audit_wire_ask.specs.Failing.{FailsPutting, FailsPuttingOne, FailsExport, IsUnasked};
ghost use Rattle.audit_wire_ask.specs.PlaceLine.{place_line};
ghost use Rattle.audit_wire_ask.specs.Putting.{AreGivenEntries};
ghost use Rattle.audit_cli_base.specs.Arguments.{selects_output};
ghost use Rattle.audit_cli_connection.specs.declared.fault.RemoteError.{RemoteError};
ghost use Rattle.audit_cli_connection.specs.Faults.{of_asking};
ghost use Rattle.audit_cli_client.specs.Asked.{AsksOnly, PrintsAnswer, IsGivenEvidence, FailsEvidence};
ghost use Rattle.audit_cli_client.specs.SocketCalls.{AsksSocket};
ghost use Rattle.audit_cli_client.specs.StoreStateLine.{store_state_line};

use crate::out::OutFile;
use crate::seen_files::SeenFiles;
use crate::store_state_line::put_store_state;
use audit_cli_base::{
    CommandError, ProofRequest, is_standard_output, write_exported, write_number,
};
use audit_cli_connection::{
    Dialing, Evidence, LineEnd, Pace, Question, RemoteError, connect, socket_identity,
};
use audit_cli_host::Dial;
use audit_disk::{FileIdentity, SystemFile, SystemFiles};
use audit_proof::Commitment;
use audit_text::{put_line, write_whole};
use audit_wire::Refusal;
use audit_wire_ask::{
    AskError, ClientError, Export, KindPlace, Out, StoreState, close_log, newest_commitment,
    place_of_kind, put_entry, put_export, put_increment, put_member, put_place, state_of_store,
};
use std::alloc::Global;
use std::fs::Files;
use std::io::{BufReader, Read, Write};
use std::time::Clock;

/// Asks a server, writes the answer to its file, and prints its line. If the server has no such entry or count, the
/// count that it has is noted.
pub fn ask_socket<F: SystemFiles + SeenFiles + Dialing + Dial + Clock, W: Write>(
    rt: &F,
    alloc: Global,
    socket: &str,
    question: Question<'_>,
    seconds: u64,
    output: &mut W,
) -> Result<(), RemoteError>
where
    F::File: SystemFile,
    // It ends over a connection to the socket, or because there is none.
    ensures asked { AsksSocket (F.failed rt.now) (F.dials rt.now) socket.now seconds result }
{
    let identity = socket_identity(rt, socket)?;
    let line = connect(rt, socket, seconds, Pace::Question)?;
    let mut to = LineEnd::of(&line);
    let mut from = BufReader::new(alloc, LineEnd::of(&line))?;
    let asked = answer(rt, alloc, identity, &mut to, &mut from, question, output);
    if asked == Err(RemoteError::Server(ClientError::Refused(Refusal::NoSuchVersion)))
        && let Ok(newest) = newest_commitment(alloc, &mut to, &mut from)
    {
        rt.note_count(newest.count);
    }
    asked
}

/// Asks a question over a connection, puts its answer, and prints its line. Nothing else is asked, whatever happens.
pub fn answer<F: SeenFiles, A: Write, B: Read, W: Write>(
    rt: &F,
    alloc: Global,
    socket: FileIdentity,
    to: &mut A,
    from: &mut B,
    question: Question<'_>,
    output: &mut W,
) -> Result<(), RemoteError>
    ensures asked { AsksOnly (A.contents to.old) (A.contents to.new) (B.remaining from.old) (B.remaining from.new)
        question.entry result }
    ensures printed { OnOk result (PrintsAnswer (A.contents to.old) (A.contents to.new) (B.remaining from.old)
        (B.remaining from.new) (W.contents output.old) (W.contents output.new) question.entry) }
{
    match question {
        Question::Commitment => {
            let newest = newest_commitment(alloc, to, from);
            print_commitment(alloc, b"commit ", newest, output)
        }
        Question::State => {
            let state = state_of_store(alloc, to, from);
            print_state(alloc, state, output)
        }
        Question::Place(kind) => {
            let place = place_of_kind(alloc, to, from, kind);
            print_place(alloc, place, output)
        }
        Question::Close => {
            let last = close_log(alloc, to, from);
            print_commitment(alloc, b"closed ", last, output)
        }
        Question::Evidence(evidence, out) => {
            let mut file = OutFile::new(rt, alloc, socket, out);
            let put = put_evidence(alloc, to, from, evidence, &mut file);
            print_evidence(alloc, evidence, put, &file, output)
        }
        Question::Export(out, first) => {
            let export = export_to(rt, alloc, socket, to, from, first, out);
            print_export(alloc, export, output)
        }
    }
}

// Prints the line of a commitment, or passes the client's error on.
fn print_commitment<W: Write>(
    alloc: Global,
    word: &[u8],
    given: Result<Commitment, ClientError>,
    output: &mut W,
) -> Result<(), RemoteError>
    ensures printed { OnOk result ((shown : Commitment) × (given ≡ Ok shown) × Appends (W.contents output.old)
        (W.contents output.new) (numbered_line word.now shown.count shown.root)) }
    ensures fault { (error : ClientError) → given ≡ Err error → result ≡ Err (RemoteError.Server error) }
{
    let commitment = given?;
    let mut line = Vec::new(alloc);
    put_line(&mut line, word, commitment.count, &commitment.root)?;
    write_whole(output, &line)?;
    Ok(())
}

// Prints the line of a store's state, or passes the client's error on.
fn print_state<W: Write>(
    alloc: Global,
    given: Result<StoreState, ClientError>,
    output: &mut W,
) -> Result<(), RemoteError>
    ensures printed { OnOk result ((shown : StoreState) × (given ≡ Ok shown) × Appends (W.contents output.old)
        (W.contents output.new) (store_state_line shown)) }
    ensures fault { (error : ClientError) → given ≡ Err error → result ≡ Err (RemoteError.Server error) }
{
    let state = given?;
    let mut line = Vec::new(alloc);
    put_store_state(&mut line, &state)?;
    write_whole(output, &line)?;
    Ok(())
}

// Prints the line of the place of a kind, or passes the client's error on.
fn print_place<W: Write>(
    alloc: Global,
    given: Result<KindPlace, ClientError>,
    output: &mut W,
) -> Result<(), RemoteError>
    ensures printed { OnOk result ((shown : KindPlace) × (given ≡ Ok shown) × Appends (W.contents output.old)
        (W.contents output.new) (place_line shown.number shown.count)) }
    ensures fault { (error : ClientError) → given ≡ Err error → result ≡ Err (RemoteError.Server error) }
{
    let place = given?;
    let mut line = Vec::new(alloc);
    put_place(&mut line, place.number, place.count)?;
    write_whole(output, &line)?;
    Ok(())
}

fn put_evidence<A: Write, B: Read, O: Out>(
    alloc: Global,
    to: &mut A,
    from: &mut B,
    evidence: Evidence,
    file: &mut O,
) -> Result<u64, AskError<O::Error>>
    ensures given { OnOk result ((bytes : List ℕ) × IsGivenEvidence (A.contents to.old) (A.contents to.new)
        (B.remaining from.old) (B.remaining from.new) evidence bytes) }
    ensures fault { IfErr result (FailsPuttingOne (IsGivenEvidence (A.contents to.old) (A.contents to.new)
        (B.remaining from.old) (B.remaining from.new) evidence) (FailsEvidence (A.contents to.old)
        (A.contents to.new) (B.remaining from.old) (B.remaining from.new) evidence)) }
{
    match evidence {
        Evidence::Entry(index) => put_entry(alloc, to, from, index, file),
        Evidence::Proof(proof) => put_proof(alloc, to, from, proof, file),
    }
}

fn put_proof<A: Write, B: Read, O: Out>(
    alloc: Global,
    to: &mut A,
    from: &mut B,
    proof: ProofRequest,
    file: &mut O,
) -> Result<u64, AskError<O::Error>>
    ensures given { OnOk result ((bytes : List ℕ) × IsGivenEvidence (A.contents to.old) (A.contents to.new)
        (B.remaining from.old) (B.remaining from.new) (Evidence.Proof proof) bytes) }
    ensures fault { IfErr result (FailsPuttingOne (IsGivenEvidence (A.contents to.old) (A.contents to.new)
        (B.remaining from.old) (B.remaining from.new) (Evidence.Proof proof)) (FailsEvidence (A.contents to.old)
        (A.contents to.new) (B.remaining from.old) (B.remaining from.new) (Evidence.Proof proof))) }
{
    match proof {
        ProofRequest::Member { index, count } => put_member(alloc, to, from, index, count, file),
        ProofRequest::Increment { older, newer } => {
            put_increment(alloc, to, from, older, newer, file)
        }
    }
}

// Prints what was put: its bytes if they go to standard output, and its line unless OUT is `-`.
fn print_evidence<F: Files, W: Write>(
    alloc: Global,
    evidence: Evidence,
    put: Result<u64, AskError<RemoteError>>,
    file: &OutFile<'_, F>,
    output: &mut W,
) -> Result<(), RemoteError>
    ensures put { OnOk result (IsOk put) }
    ensures fault { (given : AskError RemoteError) → put ≡ Err given → result ≡ Err (of_asking given) }
{
    let size = put?;
    if let Some(bytes) = file.held() {
        write_whole(output, bytes)?;
    }
    if !file.takes_line() {
        return Ok(());
    }
    match evidence {
        Evidence::Entry(_) => write_exported(alloc, 1, size, output)?,
        Evidence::Proof(_) => write_number(alloc, b"proof ", size, output)?,
    }
    Ok(())
}

// Writes all entries from the first one on to a temporary file, which replaces `out` once they are accepted. Anything
// but a regular file couldn't be replaced, and is refused.
fn export_to<F: SeenFiles, A: Write, B: Read>(
    rt: &F,
    alloc: Global,
    socket: FileIdentity,
    to: &mut A,
    from: &mut B,
    first: u64,
    out: &str,
) -> Result<Export, AskError<RemoteError>>
    ensures given { OnOk result ((bytes : List ℕ) × AreGivenEntries (A.contents to.old) (A.contents to.new)
        (B.remaining from.old) (B.remaining from.new) first bytes) }
    ensures fault { IfErr result (FailsPutting ⊥ (IsUnasked (A.contents to.old) (A.contents to.new)
        (B.remaining from.old) (B.remaining from.new) ⊎ ((bytes : List ℕ) × AreGivenEntries (A.contents to.old)
        (A.contents to.new) (B.remaining from.old) (B.remaining from.new) first bytes)) (λ error.
        (old new : Option (List ℕ)) × FailsExport (A.contents to.old) (A.contents to.new) (B.remaining from.old)
        (B.remaining from.new) first old new error)) }
{
    if is_unfit_for_export(rt, out) {
        return Err(AskError::Out(RemoteError::Command(CommandError::BadArgument)));
    }
    let mut file = OutFile::new(rt, alloc, socket, out);
    put_export(alloc, to, from, first, &mut file)
}

// Prints the line of an export that was put.
fn print_export<W: Write>(
    alloc: Global,
    put: Result<Export, AskError<RemoteError>>,
    output: &mut W,
) -> Result<(), RemoteError>
    ensures put { OnOk result (IsOk put) }
    ensures fault { (given : AskError RemoteError) → put ≡ Err given → result ≡ Err (of_asking given) }
{
    let export = put?;
    Ok(write_exported(alloc, export.count, export.size, output)?)
}

/// Whether a path can't be that of an export: it selects standard output, or something is there that isn't a regular
/// file, and couldn't be replaced.
pub fn is_unfit_for_export<F: SeenFiles>(rt: &F, out: &str) -> bool
    ensures words { selects_output out.now ≡ true → result ≡ true }
    ensures only { result ≡ true → (selects_output out.now ≡ true) ⊎ F.is_no_file rt.now out.now }
{
    is_standard_output(out) || rt.is_no_file(out)
}
