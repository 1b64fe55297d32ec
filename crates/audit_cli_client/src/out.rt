//! The files of a client: proofs, entries and exports that were accepted.
ghost use Rattle.std.specs.Prelude.{◌≡◌, ◌⊎◌, [], Some, None, IfOk, OnOk, OnErr, if◌then◌else◌};

use crate::draft::Draft;
use audit_cli_base::{OutputFile, STANDARD_OUTPUT, is_standard_output};
use audit_cli_connection::RemoteError;
use audit_disk::FileIdentity;
use audit_wire_ask::Out;
use std::alloc::Global;
use std::fs::Files;
use std::io::{BufWriter, Write};

// The size in bytes of the buffer for a file.
const FILE_ROOM: usize = 1 << 16;

/// The file at a path, which is replaced whole or not at all. What is to go to standard output is held until it is
/// taken.
#[derive(Drop)]
pub struct OutFile<'a, F> {
    rt: &'a F,
    alloc: Global,
    socket: FileIdentity,
    path: &'a str,
    held: Option<Vec<u8>>,
    is_put: bool,
}

impl<'a, F: Files> OutFile<'a, F> {
    /// The file at this path. It doesn't replace the socket.
    pub fn new(rt: &'a F, alloc: Global, socket: FileIdentity, path: &'a str) -> OutFile<'a, F> {
        OutFile {
            rt,
            alloc,
            socket,
            path,
            held: None,
            is_put: false,
        }
    }

    /// What is to go to standard output, if the path selects that.
    pub fn held(&self) -> Option<&[u8]> {
        match &self.held {
            Some(bytes) => Some(bytes.as_slice()),
            None => None,
        }
    }

    /// Whether a line is to follow. After the bytes on standard output none does.
    pub fn takes_line(&self) -> bool {
        self.path != STANDARD_OUTPUT
    }
}

/// Nothing is known of the bytes of a file.
impl<F: Files> Out for OutFile<'_, F> {
    type Error = RemoteError;

    type Draft = Draft<F::File>;

    ghost file = { λ out. if out.is_put then Some None else None };

    fn draft(&mut self) -> Result<Draft<F::File>, RemoteError> {
        if is_standard_output(self.path) {
            return Ok(Draft::Held(Vec::new(self.alloc)));
        }
        let made = OutputFile::create(self.rt, self.alloc, self.socket, self.path)?;
        Ok(Draft::File(BufWriter::with_capacity(self.alloc, FILE_ROOM, made)?))
    }

    fn put(&mut self, draft: Draft<F::File>) -> Result<(), RemoteError> {
        match draft {
            Draft::Held(bytes) => self.held = Some(bytes),
            Draft::File(mut written) => {
                let flushed = written.flush();
                let (made, _) = written.into_parts();
                if let Err(error) = flushed {
                    made.discard(self.rt);
                    return Err(error.into());
                }
                made.publish(self.rt)?;
            }
        }
        self.is_put = true;
        Ok(())
    }

    fn discard(&mut self, draft: Draft<F::File>) {
        if let Draft::File(written) = draft {
            let (made, _) = written.into_parts();
            made.discard(self.rt);
        }
    }
}
