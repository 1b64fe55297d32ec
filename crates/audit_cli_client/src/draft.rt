use audit_cli_base::OutputFile;
use std::io::{self, BufWriter, Write};

/// A file that is written, or bytes that are held for standard output.
#[derive(Drop)]
pub enum Draft<F: Write + Drop> {
    /// A file that replaces another when it is put.
    File(BufWriter<OutputFile<F>>),
    /// Bytes for standard output.
    Held(Vec<u8>),
}

/// Nothing is known of the bytes.
impl<F: Write + Drop> Write for Draft<F> {
    fn write(&mut self, bytes: &[u8]) -> io::Result<usize> {
        match self {
            Draft::File(file) => file.write(bytes),
            Draft::Held(held) => held.write(bytes),
        }
    }

    fn flush(&mut self) -> io::Result<()> {
        match self {
            Draft::File(file) => file.flush(),
            Draft::Held(held) => held.flush(),
        }
    }
}
