ghost use Rattle.std.specs.Prelude.{◌≡◌};
ghost use Rattle.audit_store.specs.declared.store_error.StoreError.TheVariants.{Memory};
ghost use Rattle.audit_cli_base.specs.declared.fault.CommandError.TheVariants.{Refused};
ghost use Rattle.audit_cli_serve.specs.declared.fault.ServingError.TheVariants.{Command};
ghost use Rattle.audit_cli_serve.specs.Faults.{serving_status, of_serving, of_loop};

use audit_cli_base::{CommandError, Status, report};
use audit_serve_passes::ServeFault;
use audit_serve_sockets::LoopError;
use audit_store::StoreError;
use audit_text::LinesError;
use std::io;
use std::io::Write;

/// Why a command that serves sessions failed.
#[derive(Clone, Copy, Debug, PartialEq, Eq)]
pub enum ServingError {
    /// An error that other commands have too: an argument, a file, the socket, the store or memory.
    Command(CommandError),
    /// The line with this number, counted from 1, isn't bytes in hex digits.
    BadFrameLine(u64),
    /// The limit of passes was reached while sessions were still live: refusal number 45.
    TooManyPasses,
}

impl ServingError {
    /// Returns the status with which the program exits.
    pub fn status(self) -> Status
        ensures { result ≡ serving_status self }
    {
        match self {
            ServingError::Command(fault) => fault.status(),
            ServingError::BadFrameLine(_) => Status::Refused,
            ServingError::TooManyPasses => Status::Device,
        }
    }

    /// Prints the error in one line, and returns the status with which the program exits. It allocates nothing.
    pub fn report<M: Write>(self, messages: &mut M) -> Status
        ensures { result ≡ serving_status self }
    {
        let _ = match self {
            ServingError::Command(fault) => {
                let _ = report(fault, messages);
                Ok(())
            }
            ServingError::BadFrameLine(line) => {
                writeln!(messages, "audit: line {line}: bad frame line")
            }
            ServingError::TooManyPasses => writeln!(messages, "audit: 45 ReadFault"),
        };
        self.status()
    }
}

impl From<CommandError> for ServingError {
    ghost use Rattle.std.specs.Prelude.{◌≡◌};
    ghost use Rattle.audit_cli_serve.specs.declared.fault.ServingError.TheVariants.{Command};

    ghost from_gives = { λ cause fault. fault ≡ Command cause };

    fn from(fault: CommandError) -> Self {
        ServingError::Command(fault)
    }
}

impl From<LinesError> for ServingError {
    ghost use Rattle.std.specs.Prelude.{◌≡◌};
    ghost use Rattle.audit_cli_serve.specs.declared.fault.ServingError.TheVariants.{Command};
    ghost use Rattle.audit_cli_base.specs.declared.fault.CommandError.TheVariants.{Lines};

    ghost from_gives = { λ cause fault. fault ≡ Command (Lines cause) };

    fn from(fault: LinesError) -> Self {
        ServingError::Command(CommandError::Lines(fault))
    }
}

impl From<io::Error> for ServingError {
    ghost use Rattle.std.specs.Prelude.{◌≡◌};
    ghost use Rattle.audit_cli_serve.specs.declared.fault.ServingError.TheVariants.{Command};
    ghost use Rattle.audit_cli_base.specs.declared.fault.CommandError.TheVariants.{File};

    ghost from_gives = { λ _ fault. fault ≡ Command File };

    fn from(_: io::Error) -> Self {
        ServingError::Command(CommandError::File)
    }
}

/// The error of a command whose round stopped. A refusal of the core is a refusal of its store.
pub fn fault_of_serving(fault: ServeFault<StoreError>) -> ServingError
    ensures { result ≡ of_serving fault }
{
    match fault {
        ServeFault::Core(error) => ServingError::Command(CommandError::Refused(error)),
        ServeFault::ReadFault => ServingError::TooManyPasses,
    }
}

/// The error of a command for which memory for a core or its streams was refused.
pub fn no_memory() -> ServingError
    ensures { result ≡ Command (Refused Memory) }
{
    ServingError::Command(CommandError::Refused(StoreError::Memory))
}

/// The error of a command whose session over lines stopped. A connection error is reported as a file error.
pub fn fault_of_loop(fault: LoopError<StoreError>) -> ServingError
    ensures { result ≡ of_loop fault }
{
    match fault {
        LoopError::Connection => ServingError::Command(CommandError::File),
        LoopError::Lines(fault) => ServingError::Command(CommandError::Lines(fault)),
        LoopError::BadLine(line) => ServingError::BadFrameLine(line),
        LoopError::Core(error) => ServingError::Command(CommandError::Refused(error)),
    }
}
