//! The forms that words of a command line have to have, and where a word departs from its own.
use audit_cli_base::{MAX_SOCKET_PATH, mode_asked, socket_path_asked};
use audit_cli_daemon::source_in;
use audit_cli_note::{MAX_NAME, is_log_name};
use audit_cli_offline::commitment_in_word;
use audit_serve_passes::MAX_BOUND_KINDS;
use audit_text::{kind_in_word, long_asked, number_in_text, split_at_first};
use std::fmt::{self, Display, Formatter};

// The hex digits of a root.
const ROOT_DIGITS: usize = 64;

// The hex digits of a key.
const KEY_DIGITS: usize = 64;

// What is appended to the path of a daemon's socket.
const STOP_SUFFIX: usize = 5;

/// The form of a word.
#[derive(Clone, Copy)]
pub(crate) enum Form<'a> {
    /// A number in 1 to 20 decimal digits, within these bounds.
    Number { least: u64, most: u64 },
    /// The kind of an event, in 1 to 10 decimal digits.
    Kind,
    /// Kinds of any events, with commas between them.
    Kinds,
    /// Numbers, or two with a dash between them, with commas between them.
    Rows,
    /// Permissions.
    Mode,
    /// A count and a root.
    Commitment,
    /// A key.
    Key,
    /// No second commitment, where a key is given.
    NoNewer,
    /// The name of a log.
    Name,
    /// The path of a socket.
    Socket,
    /// The path of a daemon's socket, beside which it makes another.
    DaemonSocket,
    /// A kind of events, and the path of its source's socket.
    Source,
    /// The same, with a kind that no word before it binds.
    NewSource,
    /// The same, where a daemon can have one more source.
    FurtherSource,
    /// What becomes of long lines, which are text if a kind is given.
    Long { text: Option<&'a str> },
    /// The kind of a proof.
    Proof,
}

impl Form<'_> {
    /// Any number.
    pub(crate) const ANY: Form<'static> = Form::Number {
        least: 0,
        most: u64::MAX,
    };

    /// Whether a word has this form.
    pub(crate) fn fits(self, word: &str) -> bool {
        let bytes = word.as_bytes();
        match self {
            Form::Number { least, most } => match number_in_text(bytes) {
                Some(number) => number >= least && number <= most,
                None => false,
            },
            Form::Kind => kind_in_word(bytes).is_some(),
            Form::Kinds => word.split(',').all(|part| is_any_kind(part)),
            Form::Rows => word.split(',').all(|part| is_row(part.as_bytes())),
            Form::Mode => mode_asked(word).is_ok(),
            Form::Commitment => commitment_in_word(bytes).is_some(),
            Form::Key => {
                bytes.len() == KEY_DIGITS && bytes.iter().all(|byte| byte.is_ascii_hexdigit())
            }
            Form::Name => is_log_name(bytes),
            Form::Socket => socket_path_asked(word, 0).is_ok(),
            Form::DaemonSocket => socket_path_asked(word, STOP_SUFFIX).is_ok(),
            Form::Source => source_in(word).is_some(),
            Form::NewSource | Form::FurtherSource | Form::NoNewer => false,
            Form::Long { text } => long_asked(Some(word), text).is_some(),
            Form::Proof => word == "member" || word == "increment",
        }
    }

    /// Where a word departs from this form, if a place says so.
    pub(crate) fn flaw(self, word: &str) -> Option<Flaw> {
        let bytes = word.as_bytes();
        match self {
            Form::Number { .. } | Form::Kind => flaw_of_digits(bytes, 0, Digits::Decimal),
            Form::Commitment => flaw_of_commitment(bytes),
            Form::Key => flaw_of_digits(bytes, 0, Digits::Hex).or(Some(Flaw::Length(word.len()))),
            Form::Name if word.len() > MAX_NAME => Some(Flaw::Length(word.len())),
            Form::Socket | Form::DaemonSocket if !word.is_empty() => {
                Some(Flaw::Length(word.len()))
            }
            _ => None,
        }
    }
}

impl Display for Form<'_> {
    fn fmt<W: fmt::Write>(&self, f: &mut Formatter<W>) -> fmt::Result {
        match self {
            Form::Number {
                least: 0,
                most: u64::MAX,
            } => f.write_str("a number below 2^64, in decimal digits"),
            Form::Number { least, most } => {
                write!(f, "a number from {least} to {most}, in decimal digits")
            }
            Form::Kind => f.write_str(
                "a number from 0 to 4294967294, in at most 10 decimal digits",
            ),
            Form::Kinds => f.write_str(
                "numbers from 0 to 4294967295, in decimal digits, with commas between them",
            ),
            Form::Rows => f.write_str(
                "numbers below 2^64, or two with a dash between them, with commas between them",
            ),
            Form::Mode => f.write_str("600 to 677, in octal digits"),
            Form::Commitment => f.write_str("COUNT:ROOT, a number and 64 hex digits"),
            Form::Key => write!(f, "{KEY_DIGITS} hex digits"),
            Form::NoNewer => {
                f.write_str("for a consistency proof, and --key for an inclusion proof")
            }
            Form::Name => write!(f, "1 to {MAX_NAME} bytes of ASCII, without spaces"),
            Form::Socket => write!(f, "a path of 1 to {MAX_SOCKET_PATH} bytes"),
            Form::DaemonSocket => {
                write!(f, "a path of 1 to {} bytes", MAX_SOCKET_PATH - STOP_SUFFIX)
            }
            Form::Source => {
                write!(
                    f,
                    "KIND:PATH, a number from 0 to 4294967294 and a path of 1 to {MAX_SOCKET_PATH} bytes"
                )
            }
            Form::NewSource => f.write_str("KIND:PATH with a kind that no other --writer has"),
            Form::FurtherSource => write!(f, "given at most {MAX_BOUND_KINDS} times"),
            Form::Long { text: None } => f.write_str("refuse, or with --text cut"),
            Form::Long { .. } => f.write_str("refuse or cut"),
            Form::Proof => f.write_str("member or increment"),
        }
    }
}

// Whether a word is the kind of an event, or of one that closes a log.
fn is_any_kind(word: &str) -> bool {
    match number_in_text(word.as_bytes()) {
        Some(kind) => kind <= u64::from(u32::MAX),
        None => false,
    }
}

// Whether a word is a number, or two with a dash between them, of which the second isn't less.
fn is_row(word: &[u8]) -> bool {
    let (first, last) = split_at_first(word, b'-');
    let last = if first.len() == word.len() {
        first
    } else {
        last
    };
    match (number_in_text(first), number_in_text(last)) {
        (Some(first), Some(last)) => first <= last,
        _ => false,
    }
}

/// Where a word departs from its form.
#[derive(Clone, Copy)]
pub(crate) enum Flaw {
    /// It has this byte, at this place from 1 on, which is none of these digits.
    Byte {
        byte: u8,
        place: u64,
        digits: Digits,
    },
    /// A commitment has no colon.
    NoColon,
    /// The root of a commitment has this many bytes.
    RootLength(usize),
    /// It has this many bytes.
    Length(usize),
}

/// The digits that a text may have.
#[derive(Clone, Copy)]
pub(crate) enum Digits {
    /// 0 to 9.
    Decimal,
    /// The same, and the letters a to f in either case.
    Hex,
}

impl Digits {
    fn has(self, byte: u8) -> bool {
        match self {
            Digits::Decimal => byte.is_ascii_digit(),
            Digits::Hex => byte.is_ascii_hexdigit(),
        }
    }
}

impl Display for Flaw {
    fn fmt<W: fmt::Write>(&self, f: &mut Formatter<W>) -> fmt::Result {
        match self {
            Flaw::Byte {
                byte,
                place,
                digits,
            } => write!(f, "{} at byte {place}", name_of(*byte, *digits)),
            Flaw::NoColon => f.write_str("it has no colon"),
            Flaw::RootLength(1) => f.write_str("its root has 1 byte"),
            Flaw::RootLength(length) => write!(f, "its root has {length} bytes"),
            Flaw::Length(length) => write!(f, "it has {length}"),
        }
    }
}

// A byte that is no digit, by name if it is one that nobody sees or that is often there by mistake.
fn name_of(byte: u8, digits: Digits) -> &'static str {
    match (byte, digits) {
        (b'\r', _) => "a carriage return",
        (b'\n', _) => "a line feed",
        (b'\t', _) => "a tab",
        (b' ', _) => "a space",
        (b',', _) => "a comma",
        (b':', _) => "a colon",
        (0x80.., _) => "a byte that isn't ASCII",
        (_, Digits::Decimal) => "no digit",
        (_, Digits::Hex) => "no hex digit",
    }
}

// The first byte that is none of these digits. The text begins after this many bytes of its word.
fn flaw_of_digits(text: &[u8], before: usize, digits: Digits) -> Option<Flaw> {
    let mut place = before as u64;
    for byte in text {
        place = place.saturating_add(1);
        if !digits.has(*byte) {
            return Some(Flaw::Byte {
                byte: *byte,
                place,
                digits,
            });
        }
    }
    None
}

fn flaw_of_commitment(word: &[u8]) -> Option<Flaw> {
    let (count, root) = split_at_first(word, b':');
    if count.len() == word.len() {
        return Some(Flaw::NoColon);
    }
    let flaw = flaw_of_digits(count, 0, Digits::Decimal);
    let flaw = flaw.or(flaw_of_digits(root, count.len().saturating_add(1), Digits::Hex));
    if flaw.is_none() && root.len() != ROOT_DIGITS {
        return Some(Flaw::RootLength(root.len()));
    }
    flaw
}

/// What is wrong with the text of a key file: the byte at a place that is no hex digit.
pub(crate) fn key_flaw(odd: (u64, u8)) -> Flaw {
    let (place, byte) = odd;
    Flaw::Byte {
        byte,
        place,
        digits: Digits::Hex,
    }
}
