//! A terminal as the output of text.
use audit_text::{ShownLetter, is_seen};
use std::alloc::Global;
use std::io::{self, ErrorKind, Write};

/// A terminal to which lines go that may have any bytes. What would move its cursor, turn a line or can't be seen is
/// printed as an escape ([`ShownLetter`]), and so is each byte that is no UTF-8. Tabs and backslashes are as they are.
#[derive(Drop)]
pub struct Screen<'w, W> {
    inner: &'w mut W,
    // The bytes after the last line feed.
    held: Vec<u8>,
}

impl<'w, W: Write> Screen<'w, W> {
    /// A terminal that is written through this writer.
    pub fn new(alloc: Global, inner: &'w mut W) -> Screen<'w, W> {
        Screen {
            inner,
            held: Vec::new(alloc),
        }
    }

    fn show_held(&mut self) -> io::Result<()> {
        for chunk in self.held.utf8_chunks() {
            for letter in chunk.valid().chars() {
                show_letter(&mut *self.inner, letter)?;
            }
            for byte in chunk.invalid() {
                write!(self.inner, "\\x{byte:02x}")?;
            }
        }
        self.held.clear();
        Ok(())
    }
}

fn show_letter<W: Write>(writer: &mut W, letter: char) -> io::Result<()> {
    if is_seen(letter) || letter == '\n' || letter == '\t' || letter == '\\' {
        write!(writer, "{letter}")
    } else {
        write!(writer, "{}", ShownLetter(letter))
    }
}

/// Nothing is known of the bytes.
impl<W: Write> Write for Screen<'_, W> {
    fn write(&mut self, bytes: &[u8]) -> io::Result<usize> {
        if self.held.extend_from_slice(bytes).is_err() {
            return Err(io::Error::from(ErrorKind::OutOfMemory));
        }
        if bytes.ends_with(b"\n") {
            self.show_held()?;
        }
        Ok(bytes.len())
    }

    fn flush(&mut self) -> io::Result<()> {
        self.show_held()?;
        self.inner.flush()
    }
}
