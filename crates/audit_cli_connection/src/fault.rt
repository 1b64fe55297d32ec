ghost use Rattle.std.specs.Prelude.{◌≡◌, option_map, IfSome, IfErr, OnOk, OnErr, Ok, Err};
ghost use Rattle.std.specs.Io.KnownBytes.{Appends};
ghost use Rattle.audit_text.specs.Writing.{WritesInPart};
ghost use Rattle.audit_cli_connection.specs.Faults.{no_memory, remote_status, status_of_server, of_sending};
ghost use Rattle.audit_cli_connection.specs.Faults.{judgment_of, judgment_in, is_passing_fault, IsNoBadArgument};
ghost use Rattle.audit_cli_connection.specs.Messages.{Says, message_of, message_of_server};
ghost use Rattle.audit_cli_connection.specs.Messages.{message_not_led, message_not_linked};

use crate::contradiction::Contradiction;
use audit_cli_base::{CommandError, Status, report};
use audit_link::LinkJudgment;
use audit_store::StoreError;
use audit_text::LinesError;
use audit_wire::Refusal;
use audit_wire_ask::{AskError, ClientError, FallibleWrite, SendError, word_of_refusal};
use std::alloc::{AllocError, AllocFailed};
use std::io::{self, ErrorKind, Write};

/// Why a command that asks a server failed.
#[derive(Clone, Copy, Debug, PartialEq, Eq)]
pub enum RemoteError {
    /// An error that other commands have too: an argument, a file, lines or memory.
    Command(CommandError),
    /// There is no connection to the socket, and this is why.
    NoConnection(ErrorKind),
    /// The server didn't answer, or its answer isn't accepted.
    Server(ClientError),
    /// What the server gave contradicts what a witness holds.
    Contradicted(Contradiction),
    /// What the server gave doesn't follow from what a reader holds: `Shorter`, `OtherRoot` or `NotAccepted`; and the
    /// two commitments, if it gave one.
    NotLed(ClientError, Option<Contradiction>),
    /// The line with this number, counted from 1, of a witness's file isn't a commitment.
    BadStateLine(u64),
    /// The log doesn't go on from the one that a witness looked at before: this half of the link isn't so.
    NotLinked(LinkJudgment),
    /// Another witness looks by the file, and didn't end in time.
    StateInUse,
    /// Another program reads by the file, and didn't end in time.
    ReaderInUse,
    /// As many lines were sent, from the line with this number on, and weren't acknowledged.
    NotAcknowledged {
        /// Their number.
        lines: u64,
        /// The number of the first of them, counted from 1.
        first: u64,
    },
}

impl RemoteError {
    /// Returns the status with which the program exits.
    pub fn status(self) -> Status
        ensures { result ≡ remote_status self }
    {
        match self {
            RemoteError::Command(fault) => fault.status(),
            RemoteError::NoConnection(_)
            | RemoteError::StateInUse
            | RemoteError::ReaderInUse
            | RemoteError::NotAcknowledged { .. } => Status::Device,
            RemoteError::Server(error) => status_of_server(error),
            RemoteError::Contradicted(_)
            | RemoteError::NotLed(_, _)
            | RemoteError::NotLinked(_)
            | RemoteError::BadStateLine(_) => Status::Refused,
        }
    }

    /// Prints the error in one line, and returns the status with which the program exits. A judgment of the log isn't
    /// printed here, because it is a line of the output. It allocates nothing.
    pub fn report<M: FallibleWrite>(self, messages: &mut M) -> Status
        ensures status { result ≡ remote_status self }
        ensures said { IfSome (message_of self) (Says (M.contents messages.old) (M.contents messages.new)
            (M.failed messages.new)) }
    {
        let _ = self.print(messages);
        self.status()
    }

    /// Prints the error in one line. After an error of that line a prefix of it was printed.
    pub(crate) fn print<M: FallibleWrite>(self, messages: &mut M) -> Result<(), LinesError>
        ensures said { OnOk result (IfSome (message_of self) (Appends (M.contents messages.old)
            (M.contents messages.new))) }
        ensures part { OnErr result (IfSome (message_of self) (WritesInPart (M.contents messages.old)
            (M.contents messages.new))) }
        ensures failed { OnErr result (M.failed messages.new) }
    {
        if let Some(words) = self.message() {
            return messages.write_text(words.as_bytes());
        }
        let _ = print_number(self, messages);
        Ok(())
    }

    // The line of the error, if it is one of the client's own and has no number.
    fn message(self) -> Option<&'static str>
        ensures { option_map (λ words. words.now) result ≡ message_of self }
    {
        match self {
            RemoteError::NoConnection(_) => Some("audit: file fault\n"),
            RemoteError::StateInUse => Some("audit: witness file in use\n"),
            RemoteError::ReaderInUse => Some("audit: state in use\n"),
            RemoteError::Server(error) => message_of_server(error),
            RemoteError::NotLed(error, _) => message_not_led(error),
            RemoteError::NotLinked(half) => message_not_linked(half),
            _ => None,
        }
    }

    /// The line of the output that judges the log, if the error is a judgment.
    pub fn judgment(self) -> Option<&'static str>
        ensures { option_map (λ words. words.now) result ≡ judgment_of self }
    {
        match self {
            RemoteError::Server(error) => judgment_in(error),
            RemoteError::Contradicted(found) => judgment_in(found.error),
            _ => None,
        }
    }

    /// Whether a later try may succeed: the server isn't there, or doesn't answer, or another witness or reader has the
    /// file.
    pub fn is_passing(self) -> bool
        ensures { result ≡ is_passing_fault self }
    {
        matches!(
            self,
            RemoteError::NoConnection(_)
                | RemoteError::StateInUse
                | RemoteError::ReaderInUse
                | RemoteError::Server(ClientError::Ended | ClientError::TimedOut)
        )
    }
}

fn judgment_in(error: ClientError) -> Option<&'static str>
    ensures { option_map (λ words. words.now) result ≡ judgment_in error }
{
    match error {
        ClientError::NotAccepted => Some("not accepted\n"),
        ClientError::Shorter => Some("shorter\n"),
        ClientError::OtherRoot => Some("other root\n"),
        _ => None,
    }
}

// A judgment of the log among the messages: the output of a reader has nothing but events.
fn message_not_led(error: ClientError) -> Option<&'static str>
    ensures { option_map (λ words. words.now) result ≡ message_not_led error }
{
    match error {
        ClientError::NotAccepted => Some("audit: not accepted\n"),
        ClientError::Shorter => Some("audit: shorter\n"),
        ClientError::OtherRoot => Some("audit: other root\n"),
        _ => None,
    }
}

fn message_not_linked(half: LinkJudgment) -> Option<&'static str>
    ensures { option_map (λ words. words.now) result ≡ message_not_linked half }
{
    match half {
        LinkJudgment::OldHalf => Some("audit: not linked: old half\n"),
        LinkJudgment::NewHalf => Some("audit: not linked: new half\n"),
        LinkJudgment::Accepted => None,
    }
}

fn status_of_server(error: ClientError) -> Status
    ensures { result ≡ status_of_server error }
{
    match error {
        ClientError::Refused(Refusal::Device)
        | ClientError::Ended
        | ClientError::TimedOut
        | ClientError::Output => Status::Device,
        ClientError::Memory => Status::Memory,
        ClientError::Refused(_)
        | ClientError::BadReply
        | ClientError::NotAccepted
        | ClientError::Shorter
        | ClientError::OtherRoot => Status::Refused,
    }
}

fn message_of_server(error: ClientError) -> Option<&'static str>
    ensures { option_map (λ words. words.now) result ≡ message_of_server error }
{
    match error {
        ClientError::BadReply => Some("audit: bad reply\n"),
        ClientError::Ended => Some("audit: connection ended\n"),
        ClientError::TimedOut => Some("audit: no reply in time\n"),
        ClientError::Output => Some("audit: file fault\n"),
        _ => None,
    }
}

// Prints the line of an error that has a number, or that other commands have too.
fn print_number<M: Write>(fault: RemoteError, messages: &mut M) -> io::Result<()> {
    match fault {
        RemoteError::Command(fault) => {
            let _ = report(fault, messages);
            Ok(())
        }
        RemoteError::Server(ClientError::Refused(refusal)) => {
            let (number, name) = (refusal.code(), word_of_refusal(refusal));
            writeln!(messages, "audit: {number} {name}")
        }
        RemoteError::Server(ClientError::Memory) => {
            let _ = report(CommandError::Refused(StoreError::Memory), messages);
            Ok(())
        }
        RemoteError::BadStateLine(line) => {
            writeln!(messages, "audit: line {line}: bad commitment line")
        }
        RemoteError::NotAcknowledged { lines: 1, first } => writeln!(
            messages,
            "audit: 1 line from line {first} is not acknowledged"
        ),
        RemoteError::NotAcknowledged { lines, first } => writeln!(
            messages,
            "audit: {lines} lines from line {first} are not acknowledged"
        ),
        _ => Ok(()),
    }
}

impl From<CommandError> for RemoteError {
    ghost use Rattle.std.specs.Prelude.{◌≡◌};
    ghost use Rattle.audit_cli_connection.specs.declared.fault.RemoteError.TheVariants.{Command};

    ghost from_gives = { λ cause fault. fault ≡ Command cause };

    fn from(fault: CommandError) -> Self {
        RemoteError::Command(fault)
    }
}

impl From<ClientError> for RemoteError {
    ghost use Rattle.std.specs.Prelude.{◌≡◌};
    ghost use Rattle.audit_cli_connection.specs.declared.fault.RemoteError.TheVariants.{Server};

    ghost from_gives = { λ cause fault. fault ≡ Server cause };

    fn from(error: ClientError) -> Self {
        RemoteError::Server(error)
    }
}

impl From<LinesError> for RemoteError {
    ghost use Rattle.std.specs.Prelude.{◌≡◌};
    ghost use Rattle.audit_cli_connection.specs.declared.fault.RemoteError.TheVariants.{Command};
    ghost use Rattle.audit_cli_base.specs.declared.fault.CommandError.TheVariants.{Lines};

    ghost from_gives = { λ cause fault. fault ≡ Command (Lines cause) };

    fn from(fault: LinesError) -> Self {
        RemoteError::Command(CommandError::Lines(fault))
    }
}

impl From<io::Error> for RemoteError {
    ghost use Rattle.std.specs.Prelude.{◌≡◌};
    ghost use Rattle.audit_cli_connection.specs.declared.fault.RemoteError.TheVariants.{Command};
    ghost use Rattle.audit_cli_base.specs.declared.fault.CommandError.TheVariants.{File};

    ghost from_gives = { λ _ fault. fault ≡ Command File };

    fn from(_: io::Error) -> Self {
        RemoteError::Command(CommandError::File)
    }
}

impl From<AllocError> for RemoteError {
    ghost use Rattle.std.specs.Prelude.{◌≡◌};
    ghost use Rattle.audit_cli_connection.specs.Faults.{no_memory};

    ghost from_gives = { λ _ fault. fault ≡ no_memory };

    fn from(_: AllocError) -> Self {
        no_memory()
    }
}

impl<T: Drop> From<AllocFailed<T>> for RemoteError {
    ghost use Rattle.std.specs.Prelude.{◌≡◌};
    ghost use Rattle.audit_cli_connection.specs.Faults.{no_memory};

    ghost from_gives = { λ _ fault. fault ≡ no_memory };

    fn from(_: AllocFailed<T>) -> Self {
        no_memory()
    }
}

/// The result of calls in which no word is judged: what fails in them is no wrong argument, but a file.
pub fn without_words<T>(done: Result<T, RemoteError>) -> Result<T, RemoteError>
    ensures fault { IfErr result IsNoBadArgument }
    ensures same { IfErr done IsNoBadArgument → result ≡ done }
    ensures done { (given : T) → result ≡ Ok given → done ≡ Ok given }
    ensures bad { done ≡ Err (RemoteError.Command CommandError.BadArgument)
        → result ≡ Err (RemoteError.Command CommandError.File) }
{
    match done {
        Err(RemoteError::Command(CommandError::BadArgument)) => {
            Err(RemoteError::Command(CommandError::File))
        }
        done => done,
    }
}

/// The error for refused memory.
pub fn no_memory() -> RemoteError
    ensures { result ≡ no_memory }
{
    RemoteError::Command(CommandError::Refused(StoreError::Memory))
}

impl From<SendError> for RemoteError {
    ghost use Rattle.std.specs.Prelude.{◌≡◌};
    ghost use Rattle.audit_cli_connection.specs.Faults.{of_sending};

    ghost from_gives = { λ given fault. fault ≡ of_sending given };

    fn from(error: SendError) -> Self {
        match error {
            SendError::Input(fault) => RemoteError::Command(CommandError::Lines(fault)),
            SendError::Client(error) => RemoteError::Server(error),
            SendError::Output | SendError::Keys => RemoteError::Command(CommandError::File),
        }
    }
}

impl From<AskError<RemoteError>> for RemoteError {
    ghost use Rattle.std.specs.Prelude.{◌≡◌};
    ghost use Rattle.audit_cli_connection.specs.Faults.{of_asking};

    ghost from_gives = { λ given fault. fault ≡ of_asking given };

    fn from(error: AskError<RemoteError>) -> Self {
        match error {
            AskError::Client(error) => RemoteError::Server(error),
            AskError::Out(error) => error,
        }
    }
}
