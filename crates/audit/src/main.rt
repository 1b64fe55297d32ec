//! The program `audit`: a tamper-evident audit store.
#![tactic(auto)]

mod argument;
mod auditor_forms;
mod bytes;
mod cause;
mod command;
mod command_form;
mod contents;
mod continuing;
mod disk_blocks;
mod ending;
mod existing;
mod explaining;
mod form;
mod forms;
mod heard;
mod noted;
mod outside;
mod places;
mod program;
mod question;
mod remote_command;
mod remote_forms;
mod server;
mod serving_forms;
mod store_forms;
mod streams;
mod warning;
mod witnessed;
mod words;
mod wrong_word;

use audit_cli_base::{CommandError, Status, report};
use audit_cli_host::{Host, NotedFile, Notes, Subject};
use audit_cli_terminal::{Messages, Progress};
use audit_store::StoreError;
use program::{Terminals, run};
use std::env::{self, Args};
use std::io::{self, BufWriter, ErrorKind, IsTerminal, Write};
use std::process::ExitCode;
use streams::hold_standard_streams;
use words::Named;

// The size in bytes of the buffer for output.
const OUTPUT_ROOM: usize = 1 << 16;

fn main(rt: HostRuntime) -> ExitCode {
    ExitCode::from(start(&rt).code())
}

fn start(rt: &HostRuntime) -> Status {
    if hold_standard_streams(rt).is_err() {
        return report(CommandError::File, &mut rt.stderr());
    }
    // The first word is the program's name. Otherwise memory is refused, or a word isn't text.
    let begun = match env::args(&(Named(rt), rt.alloc())) {
        Ok(words) => run_words(rt, words),
        Err(error) => Err(error),
    };
    match begun {
        Ok(status) => status,
        Err(error) => explain_start(rt, &error),
    }
}

fn run_words(rt: &HostRuntime, words: Args) -> io::Result<Status> {
    let alloc = rt.alloc();
    let words: Vec<String> = words.collect(alloc)?;
    let progress = Progress::new(rt);
    let notes = Notes::new(&words, &progress);
    let mut input = NotedFile::new(rt.reader(), Subject::Input, &notes);
    let output = NotedFile::new(io::writer(rt), Subject::Output, &notes);
    let mut output = BufWriter::with_capacity(alloc, OUTPUT_ROOM, output)?;
    let status = run(
        &Host::new(rt, &notes),
        alloc,
        &words,
        &notes,
        Terminals {
            input: rt.stdin().is_terminal(),
            output: rt.stdout().is_terminal(),
            messages: rt.stderr().is_terminal(),
        },
        &mut input,
        &mut output,
        &mut Messages::new(&progress),
    );
    progress.erase();
    Ok(status)
}

// Prints why the program couldn't start: memory was refused, or a word isn't text.
fn explain_start(rt: &HostRuntime, error: &io::Error) -> Status {
    let fault = if error.kind() == ErrorKind::OutOfMemory {
        CommandError::Refused(StoreError::Memory)
    } else {
        CommandError::BadArgument
    };
    let status = report(fault, &mut rt.stderr());
    if status == Status::Usage && rt.stderr().is_terminal() {
        let _ = writeln!(rt.stderr(), "audit: a word of the command line isn't UTF-8");
    }
    status
}
