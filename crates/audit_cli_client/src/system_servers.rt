//! The servers that commands ask on a system with files, sockets and a clock.
ghost use Rattle.std.specs.Prelude.{◌≡◌, true};
ghost use Rattle.audit_cli_connection.specs.ServerCalls.{IsUnfitExport};
ghost use Rattle.audit_cli_client.specs.NamedFiles.{files_named};

use crate::asking::{ask_socket, is_unfit_for_export};
use crate::read_file::read_by_file;
use crate::seen_files::SeenFiles;
use crate::sending::send_to_socket;
use audit_cli_base::{CommandError, Status};
use audit_cli_connection::{
    Dialing, Post, Question, ReadTask, RemoteError, Servers, Task, date_of_now, without_words,
};
use audit_cli_host::Dial;
use audit_cli_witness::look_by_file;
use audit_disk::{SystemFile, SystemFiles};
use audit_wire_ask::{FallibleWrite, Sight};
use httpdate::HttpDate;
use std::alloc::Global;
use std::io::{Read, Write};
use std::thread;
use std::time::{Clock, Duration};

/// The servers of a system with files, sockets and a clock.
#[derive(Drop)]
pub struct SystemServers<'a, F> {
    rt: &'a F,
}

impl<'a, F> SystemServers<'a, F> {
    /// Those of this system.
    pub fn new(rt: &'a F) -> SystemServers<'a, F> {
        SystemServers { rt }
    }
}

/// Nothing is known of the bytes of the system's servers. It is known which connections were made, which locks failed,
/// and of a file that a word names what its calls showed.
impl<F: SystemFiles + SeenFiles + Dialing + Dial + Clock> Servers for SystemServers<'_, F>
where
    F::File: SystemFile,
{
    ghost use Rattle.audit_cli_client.specs.NamedFiles.{files_named};
    ghost use Rattle.audit_cli_client.specs.SocketCalls.{socket_calls};

    ghost calls = { socket_calls F.failed F.dials F.File.facts };

    ghost files = { λ servers. files_named F.File.facts F.File.remaining (F.is_no_file servers.rt.now) };

    fn ask<W: Write>(
        &mut self,
        alloc: Global,
        socket: &str,
        question: Question<'_>,
        seconds: u64,
        output: &mut W,
    ) -> Result<(), RemoteError> {
        if is_unfit(self.rt, question) {
            return Err(RemoteError::Command(CommandError::BadArgument));
        }
        without_words(ask_socket(self.rt, alloc, socket, question, seconds, output))
    }

    fn send<R: Read, W: Write, M: Write>(
        &mut self,
        alloc: Global,
        socket: &str,
        task: Task<'_>,
        input: &mut R,
        output: &mut W,
        messages: &mut M,
    ) -> Result<Status, RemoteError> {
        without_words(send_to_socket(self.rt, alloc, socket, task, input, output, messages))
    }

    fn look(&mut self, alloc: Global, post: Post<'_>) -> Result<Sight, RemoteError> {
        without_words(look_by_file(self.rt, alloc, post))
    }

    fn read<W: FallibleWrite, M: Write>(
        &mut self,
        alloc: Global,
        task: ReadTask<'_>,
        output: &mut W,
        messages: &mut M,
    ) -> Result<(), RemoteError> {
        read_by_file(self.rt, alloc, task, output, messages)
    }

    fn pause(&mut self, seconds: u64) {
        thread::sleep(self.rt, Duration::from_secs(seconds));
    }

    fn date(&self) -> Option<HttpDate> {
        date_of_now(self.rt)
    }
}

// Whether a question is for an export to a path that can't be one's. That is judged before the server is asked.
fn is_unfit<F: SystemFiles + SeenFiles>(rt: &F, question: Question<'_>) -> bool
where
    F::File: SystemFile,
    ensures { result ≡ true
        → IsUnfitExport (files_named F.File.facts F.File.remaining (F.is_no_file rt.now)) question.entry }
{
    match question {
        Question::Export(out, _) => is_unfit_for_export(rt, out),
        _ => false,
    }
}
