// Whole command lines over files. The expected output was computed by an independent model.
use audit_cli_append as append;
use audit_cli_base::{CommandError, Status, mode_asked, report_end};
use audit_cli_calls::SystemStores;
use audit_cli_store::{Access, Request, ShowForm, Site, run};
use std::fs::{self, OpenOptions};
use std::io::{self, ErrorKind};
use std::path::PathBuf;
use std::process::Abort;
use std::{env, process};

// The path of a temporary file that doesn't exist.
fn unused(rt: &HostRuntime, judge: &impl Abort, name: &str) -> PathBuf {
    let mut path = env::temp_dir(rt).expect(judge, "a folder");
    let number = process::id(rt.process());
    let file = format!(in rt.alloc(); "audit_commands_{name}_{number}").expect(judge, "memory");
    path.push(file.as_str()).expect(judge, "memory");
    let _ = fs::remove_file(rt, path.as_str());
    path
}

// Whether a command prints this and ends with this status.
fn prints(
    rt: &HostRuntime,
    request: Request<'_>,
    input: &[u8],
    printed: &str,
    status: Status,
) -> bool {
    let mut input = input;
    let mut output = Vec::new(rt.alloc());
    let mut messages = Vec::new(rt.alloc());
    let found = run(
        rt,
        rt.alloc(),
        request,
        &mut input,
        &mut output,
        &mut messages,
    );
    let written = if status == Status::Done {
        &output
    } else {
        &messages
    };
    written.as_slice() == printed.as_bytes() && found == status
}

// Whether an append of lines prints a line for them.
fn acknowledges(rt: &HostRuntime, file: &str, input: &[u8], printed: &str) -> bool {
    let request = append::Request {
        file,
        text: None,
        expect: None,
        follows: false,
        long: None,
        reserve: None,
    };
    let mut input = input;
    let mut output = Vec::new(rt.alloc());
    let mut messages = Vec::new(rt.alloc());
    let mut stores = SystemStores::new(rt);
    let found = append::run(
        rt,
        &mut stores,
        rt.alloc(),
        request,
        &mut input,
        &mut output,
        &mut messages,
    );
    output.as_slice() == printed.as_bytes() && found == Status::Done
}

fn format<'a>(file: &'a str, sectors: &'a str, key_file: &'a str) -> Request<'a> {
    Request::Format {
        file,
        site: Site::NewFile { mode: None },
        sectors,
        key_file,
    }
}

// A key file of zeros.
const KEY_TEXT: &str = "0000000000000000000000000000000000000000000000000000000000000000\n";

const SHOWN: &str = "\
commit 3 14f62f94f894a0899217375286c3fc9aff843acaf2f9244791534711b20d0109\n\
sectors 10 end 5 generation 4 version 2 state open\n";

const ACK: &str = "ack 0 3 14f62f94f894a0899217375286c3fc9aff843acaf2f9244791534711b20d0109\n";

const THREE: &[u8] = b"event 1 6869\nevent 7 -\nevent 4294967294 DEadBEef";

// What OUT contains before a proof of 113 bytes replaces it.
const LONGER: &str =
    "what stood there before, longer than the proof that comes to stand there: it has \
    113 bytes, this text more of them, for it goes on and on";

// A file is formatted once.
fn expect_formatted(rt: &HostRuntime, judge: &impl Abort, file: &str, key: &str) {
    for (printed, status) in [
        ("formatted 10\n", Status::Done),
        ("audit: file exists\n", Status::Refused),
    ] {
        assert!(judge; prints(rt, format(file, "10", key), b"", printed, status));
    }
}

fn expect_shown(rt: &HostRuntime, judge: &impl Abort, file: &str, access: Access) {
    let show = Request::Show {
        file,
        access,
        form: ShowForm::State,
    };
    assert!(judge; prints(rt, show, b"", SHOWN, Status::Done));
}

fn expect_proved(rt: &HostRuntime, judge: &impl Abort, file: &str, out: &str) {
    let prove = Request::Prove {
        file,
        kind: "increment",
        first: "1",
        second: "3",
        out,
        access: Access::Repair,
    };
    assert!(judge; prints(rt, prove, b"", "proof 114\n", Status::Done));
    let metadata = fs::metadata(rt, out).expect(judge, "metadata");
    assert!(judge; metadata.len() == 114);
}

// The commands over a store in a file, a key file, and a file for a proof.
fn expect_commands(rt: &HostRuntime, judge: &impl Abort, file: &str, key: &str, out: &str) {
    expect_formatted(rt, judge, file, key);
    assert!(judge; acknowledges(rt, file, THREE, ACK));
    for access in [Access::Repair, Access::ReadOnly] {
        expect_shown(rt, judge, file, access);
    }
    expect_proved(rt, judge, file, out);
}

fn write(rt: &HostRuntime, judge: &impl Abort, path: &str, text: &str) {
    fs::write(rt, path, text).expect(judge, "a write");
}

fn remove(rt: &HostRuntime, judge: &impl Abort, paths: [&str; 3]) {
    for path in paths {
        fs::remove_file(rt, path).expect(judge, "a removal");
    }
}

#[test]
fn a_store_in_a_file(rt: HostRuntime) {
    let file = unused(&rt, &rt, "store");
    let key = unused(&rt, &rt, "key");
    let out = unused(&rt, &rt, "out");
    write(&rt, &rt, key.as_str(), KEY_TEXT);
    write(&rt, &rt, out.as_str(), LONGER);
    expect_commands(&rt, &rt, file.as_str(), key.as_str(), out.as_str());
    remove(&rt, &rt, [file.as_str(), key.as_str(), out.as_str()]);
}

// Words, and the permissions they denote, as POSIX's chmod reads them if the owner reads and writes: three digits, or a
// zero and three.
const MODES: [(&str, Option<u32>); 16] = [
    ("600", Some(384)),
    ("640", Some(416)),
    ("666", Some(438)),
    ("677", Some(447)),
    ("", None),
    ("60", None),
    ("0600", Some(384)),
    ("0677", Some(447)),
    ("0700", None),
    ("1600", None),
    ("00600", None),
    ("700", None),
    ("400", None),
    ("680", None),
    ("608", None),
    ("6a0", None),
];

#[test]
fn modes_are_three_octal_digits(rt: HostRuntime) {
    for (word, mode) in MODES {
        assert!(rt; mode_asked(word).ok() == mode);
    }
}

#[test]
fn output_that_is_lost_is_reported_last(rt: HostRuntime) {
    let mut messages = Vec::new(rt.alloc());
    let lost = || Err(io::Error::from(ErrorKind::StorageFull));
    assert!(rt; report_end(Err(CommandError::BadProof), lost(), &mut messages) == Status::Device);
    assert!(rt; report_end(Ok(()), lost(), &mut messages) == Status::Device);
    assert!(rt; report_end(Err(CommandError::File), lost(), &mut messages) == Status::Device);
    let wanted = "audit: 32 BadProof\naudit: file fault\naudit: file fault\naudit: file fault\n";
    assert!(rt; messages.as_slice() == wanted.as_bytes());
}
