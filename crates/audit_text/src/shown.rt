//! Names and other texts from outside, as they are printed for people.
ghost use Rattle.std.specs.Prelude.{◌≡◌};
ghost use Rattle.audit_text.specs.ShownText.{is_seen, is_unseen_mark};

use std::fmt::{self, Display, Formatter, Write};

/// A text as it is printed for people: each letter that can't be seen, ends a line or turns its direction, and each
/// backslash, is an escape. So a name can't print a line of its own, or move a terminal's cursor.
///
/// An escape is `\x` and two hex digits below 0x80, and otherwise `\u` and at least four.
#[derive(Clone, Copy)]
pub struct Shown<'a>(pub &'a str);

/// A letter as it is printed in a [`Shown`] text.
#[derive(Clone, Copy)]
pub struct ShownLetter(pub char);

impl Display for ShownLetter {
    fn fmt<W: Write>(&self, f: &mut Formatter<W>) -> fmt::Result {
        write_letter(f, self.0)
    }
}

impl Display for Shown<'_> {
    fn fmt<W: Write>(&self, f: &mut Formatter<W>) -> fmt::Result {
        for letter in self.0.chars() {
            write_letter(f, letter)?;
        }
        Ok(())
    }
}

fn write_letter<W: Write>(f: &mut Formatter<W>, letter: char) -> fmt::Result {
    let code = u32::from(letter);
    if is_seen(letter) {
        f.write_char(letter)
    } else if code < 0x80 {
        write!(f, "\\x{code:02x}")
    } else if code <= 0xffff {
        write!(f, "\\u{code:04x}")
    } else {
        write!(f, "\\u{{{code:04x}}}")
    }
}

/// Whether a letter is printed as it is: it is no control character, no mark that can't be seen, that turns the
/// direction of a line or that ends it, and no backslash.
pub fn is_seen(letter: char) -> bool
    ensures { result ≡ is_seen letter }
{
    let code = u32::from(letter);
    code >= 0x20 && !(code >= 0x7f && code <= 0x9f) && code != 0x5c && !is_unseen_mark(code)
}

// Whether this is the number of a mark that can't be seen, or turns the direction of a line or ends it.
fn is_unseen_mark(code: u32) -> bool
    ensures { result ≡ is_unseen_mark code }
{
    code == 0xad
        || code == 0x61c
        || code == 0x180e
        || (code >= 0x200b && code <= 0x200f)
        || (code >= 0x2028 && code <= 0x202e)
        || (code >= 0x2060 && code <= 0x206f)
        || code == 0xfeff
        || (code >= 0xfff9 && code <= 0xfffb)
        || (code >= 0xe0000 && code <= 0xe0fff)
}
