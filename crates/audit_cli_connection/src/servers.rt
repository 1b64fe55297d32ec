//! Systems on which servers are asked.
ghost use Rattle.std.specs.Prelude.{◌≡◌, [], ◌∷◌, Ok, Err, IfErr, OnOk};
ghost use Rattle.audit_cli_base.specs.declared.fault.CommandError.TheVariants.{BadArgument};
ghost use Rattle.audit_cli_base.specs.declared.status.Status.TheVariants.{Usage};
ghost use Rattle.audit_cli_connection.specs.declared.fault.RemoteError.TheVariants.{Command};
ghost use Rattle.audit_cli_connection.specs.Faults.{IsNoBadArgument};
ghost use Rattle.audit_cli_connection.specs.ServerCalls.{ServersModel, CommandStreams, NamedFiles};
ghost use Rattle.audit_cli_connection.specs.ServerCalls.{IsUnfitExport, HasBeginning, IsUnfitReading};
ghost use Rattle.audit_cli_connection.specs.ServerCalls.{a_query, a_sending, a_look, a_reading, a_rest};

use crate::fault::RemoteError;
use crate::post::Post;
use crate::question::Question;
use crate::read_task::ReadTask;
use crate::task::Task;
use audit_cli_base::Status;
use audit_wire_ask::{FallibleWrite, Sight};
use httpdate::HttpDate;
use std::alloc::Global;
use std::io::{Read, Write};

/// A system on which commands ask servers. Code that is generic over it knows which calls were made, in order, and how
/// each ended: so no call can be added or left out, and no result made up, without its contract saying so.
pub trait Servers {
    /// What its calls do, and what is known of it.
    ghost calls: { ServersModel Self };

    /// What its calls showed of the files that words name.
    ghost files: { Self → NamedFiles };

    /// Asks the server at a socket, and prints the answer. The server has this many seconds for each reply. The error
    /// is `BadArgument` only if an export is to go to standard output, or to something that isn't a regular file.
    fn ask<W: Write>(
        &mut self,
        alloc: Global,
        socket: &str,
        question: Question<'_>,
        seconds: u64,
        output: &mut W,
    ) -> Result<(), RemoteError>
        ensures did { calls.DidCalls self.old self.new (a_query socket.now question.entry seconds
            (W.contents output.old) (W.contents output.new) result ∷ []) }
        ensures bad { result ≡ Err (Command BadArgument) → IsUnfitExport (files self.new) question.entry };

    /// Sends the events of an input to the server at a socket, and prints its answers. No argument is called bad.
    fn send<R: Read, W: Write, M: Write>(
        &mut self,
        alloc: Global,
        socket: &str,
        task: Task<'_>,
        input: &mut R,
        output: &mut W,
        messages: &mut M,
    ) -> Result<Status, RemoteError>
        ensures did { calls.DidCalls self.old self.new (a_sending socket.now task.entry
            (record {
              input = R.remaining input.old;
              output = W.contents output.old;
              messages = M.contents messages.old;
            })
            (record {
              input = R.remaining input.new;
              output = W.contents output.new;
              messages = M.contents messages.new;
            })
            result ∷ []) }
        ensures bad { IfErr result IsNoBadArgument }
        ensures status { result ≡ Ok Usage → ⊥ };

    /// Looks at a log as a witness does. No argument is called bad.
    fn look(&mut self, alloc: Global, post: Post<'_>) -> Result<Sight, RemoteError>
        ensures did { calls.DidCalls self.old self.new (a_look post.entry result ∷ []) }
        ensures bad { IfErr result IsNoBadArgument };

    /// Reads a log on, prints its events, and keeps the bookmark after them. It begins from the bookmark that a file
    /// has, or from the first key. The error is `BadArgument` only if the word for kinds lists none, or the file for the
    /// first key or the bookmark has none.
    fn read<W: FallibleWrite, M: Write>(
        &mut self,
        alloc: Global,
        task: ReadTask<'_>,
        output: &mut W,
        messages: &mut M,
    ) -> Result<(), RemoteError>
        ensures did { calls.DidCalls self.old self.new (a_reading task.entry (W.contents output.old)
            (W.contents output.new) result ∷ []) }
        ensures begun { OnOk result (HasBeginning (files self.new) task.entry) }
        ensures bad { result ≡ Err (Command BadArgument) → IsUnfitReading (files self.new) task.entry };

    /// Pauses for this many seconds.
    fn pause(&mut self, seconds: u64)
        ensures { calls.DidCalls self.old self.new (a_rest seconds ∷ []) };

    /// The date of now, to a second; none if there is no clock, or it is past the year 9999.
    fn date(&self) -> Option<HttpDate>;
}
