//! What reads an export.
ghost use Rattle.std.specs.Prelude.{IfErr};
ghost use Rattle.std.specs.Io.{ReadsAtMost};
ghost use Rattle.audit_cli_base.specs.Faults.{IsNoWordFault};

use crate::files::Readers;
use audit_cli_base::CommandError;
use audit_store::StoreError;
use audit_verify::BYTE_LIMIT;
use std::alloc::Global;
use std::io::{self, ErrorKind, Read};
use std::rc::Rc;

/// A reader of an export: of its file, or of what was kept of one that can't be read twice.
#[derive(Drop)]
pub enum ExportReader<F> {
    /// The open file.
    File(F),
    /// The bytes that were kept.
    Kept(Kept),
}

/// A reader of bytes that were kept.
#[derive(Drop)]
pub struct Kept {
    bytes: Rc<Vec<u8>>,
    // How many of them were given.
    given: usize,
    // Whether reading more of them had failed. Then this reader fails there, too.
    is_cut: bool,
}

/// Reads what can't be read twice, as far as an export may go and a byte further, and returns two readers of it.
pub(crate) fn kept_twice<F: Read + Drop>(
    alloc: Global,
    mut file: F,
) -> Result<Readers<ExportReader<F>>, CommandError>
    ensures { IfErr result IsNoWordFault }
{
    let mut bytes = Vec::new(alloc);
    let is_cut = read_further(&mut file, &mut bytes)?;
    let Ok(bytes) = Rc::new(alloc, bytes) else {
        return Err(CommandError::Refused(StoreError::Memory));
    };
    let first = ExportReader::Kept(Kept::new(bytes.clone()?, is_cut));
    let second = ExportReader::Kept(Kept::new(bytes, is_cut));
    Ok(Readers { first, second })
}

// Reads to the end, and returns whether reading failed before it.
fn read_further<R: Read>(reader: &mut R, bytes: &mut Vec<u8>) -> Result<bool, CommandError>
    ensures { IfErr result IsNoWordFault }
{
    match reader.take(BYTE_LIMIT + 1).read_to_end(bytes) {
        Ok(_) => Ok(false),
        Err(error) if error.kind() == ErrorKind::OutOfMemory => {
            Err(CommandError::Refused(StoreError::Memory))
        }
        Err(_) => Ok(true),
    }
}

impl Kept {
    fn new(bytes: Rc<Vec<u8>>, is_cut: bool) -> Kept {
        Kept {
            bytes,
            given: 0,
            is_cut,
        }
    }

    // Gives the next bytes, of which there are none at the end.
    fn give(&mut self, into: &mut [u8]) -> io::Result<usize>
        ensures { ReadsAtMost result into.new }
    {
        let left = self.bytes.get(self.given..).unwrap_or(&[]);
        if left.is_empty() && self.is_cut {
            return Err(io::Error::from(ErrorKind::Other));
        }
        let count = left.len().min(into.len());
        into[..count].copy_from_slice(&left[..count]);
        self.given = self.given.saturating_add(count);
        Ok(count)
    }
}

/// Nothing is known of the bytes.
impl<F: Read> Read for ExportReader<F> {
    fn read(&mut self, into: &mut [u8]) -> io::Result<usize> {
        match self {
            ExportReader::File(file) => file.read(into),
            ExportReader::Kept(kept) => kept.give(into),
        }
    }
}
