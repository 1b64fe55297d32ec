ghost use Rattle.std.specs.Prelude.{◌≡◌, IsOk, IsErr};
ghost use Rattle.audit_cli_base.specs.Faults.{status_of, status_of_end};

use crate::commitment_word::CommitmentWord;
use crate::fault::CommandError;
use crate::status::Status;
use audit_proof::Commitment;
use audit_store::StoreError;
use audit_text::LinesError;
use audit_verify::VerifyFault;
use std::io;
use std::io::Write;

/// Prints in one line why a command failed, and returns the program's exit status. If the line can't be printed, only
/// the status reports the fault. Nothing is printed for a proof that isn't accepted, or for salvaged entries, because
/// the command has already printed that. For a device that is too small a second line states its size, and for another
/// log both commitments. It allocates nothing.
pub fn report<M: Write>(fault: CommandError, messages: &mut M) -> Status
    ensures { result ≡ status_of fault }
{
    let _ = match fault {
        CommandError::BadArgument => writeln!(messages, "audit: bad argument"),
        CommandError::FileExists => writeln!(messages, "audit: file exists"),
        CommandError::File => writeln!(messages, "audit: file fault"),
        CommandError::InUse => writeln!(messages, "audit: store in use"),
        CommandError::Replaced => writeln!(messages, "audit: store replaced"),
        CommandError::TooSmall { sectors } => print_too_small(sectors, messages),
        CommandError::OtherCount { count } => writeln!(messages, "audit: count is {count}"),
        CommandError::OtherLog { held, own } => print_other_log(held, own, messages),
        CommandError::Lines(cause) => print_lines_fault(cause, messages),
        CommandError::Refused(error) => print_refusal(error, messages),
        CommandError::Export(fault) => print_export_fault(fault, messages),
        CommandError::BadProof => writeln!(messages, "audit: 32 BadProof"),
        CommandError::NotAccepted | CommandError::Salvaged => Ok(()),
    };
    fault.status()
}

/// Prints how a command ended, after the last flush of its output, and returns the program's exit status. A failed
/// flush is a separate fault, printed in a line after the command's own fault, unless that is already a file fault.
pub fn report_end<M: Write>(
    done: Result<(), CommandError>,
    flushed: io::Result<()>,
    messages: &mut M,
) -> Status
    ensures whole { IsOk flushed → result ≡ status_of_end done }
    ensures failed { IsErr flushed → result ≡ Status.Device }
{
    let status = match done {
        Ok(()) => Status::Done,
        Err(fault) => report(fault, messages),
    };
    report_flush(status, flushed, messages)
}

/// Prints that the last flush of a command's output failed, if it did: in a line after the command's own fault, unless
/// that is already a file fault. Returns the program's exit status.
pub fn report_flush<M: Write>(status: Status, flushed: io::Result<()>, messages: &mut M) -> Status
    ensures whole { IsOk flushed → result ≡ status }
    ensures failed { IsErr flushed → result ≡ Status.Device }
{
    if flushed.is_ok() || status == Status::Device {
        return status;
    }
    report(CommandError::File, messages)
}

// A size that no store has, and then the number of sectors.
fn print_too_small<M: Write>(sectors: u64, messages: &mut M) -> io::Result<()> {
    print_refusal(StoreError::BadSize, messages)?;
    if sectors == 1 {
        return writeln!(messages, "audit: there is 1 sector");
    }
    writeln!(messages, "audit: there are {sectors} sectors")
}

// That the log is another one, and then the commitment that it has to extend, and its own.
fn print_other_log<M: Write>(
    held: Commitment,
    own: Commitment,
    messages: &mut M,
) -> io::Result<()> {
    let (held, own) = (CommitmentWord(held), CommitmentWord(own));
    writeln!(messages, "audit: other log")?;
    writeln!(messages, "audit: held {held}, the store has {own}")
}

fn print_lines_fault<M: Write>(fault: LinesError, messages: &mut M) -> io::Result<()> {
    match fault {
        LinesError::InputTooLong => writeln!(messages, "audit: input too long"),
        LinesError::Line { line, cause } => {
            writeln!(messages, "audit: line {line}: {}", cause.name())
        }
        LinesError::Read | LinesError::Write => writeln!(messages, "audit: file fault"),
        LinesError::Memory => print_refusal(StoreError::Memory, messages),
    }
}

// The entry at fault, or the number of entries, followed by the number and name of the cause.
fn print_export_fault<M: Write>(fault: VerifyFault, messages: &mut M) -> io::Result<()> {
    let (index, cause) = (fault.index, fault.cause);
    let (number, name) = (cause.number(), cause.name());
    writeln!(messages, "audit: entry {index}: {number} {name}")
}

// The number and name of the refusal, and the index if it has one.
fn print_refusal<M: Write>(error: StoreError, messages: &mut M) -> io::Result<()> {
    let (number, name) = (error.number(), error.name());
    match error {
        StoreError::DamagedLog { index } => writeln!(messages, "audit: {number} {name} {index}"),
        _ => writeln!(messages, "audit: {number} {name}"),
    }
}
