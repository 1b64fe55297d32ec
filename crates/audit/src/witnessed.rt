//! The newest commitment in the file of a witness that a command line names: the log of its store has to extend it.
use audit_cli_connection::RemoteError;
use audit_cli_witness::witnessed_at;
use audit_proof::Commitment;
use std::alloc::Global;
use std::fs::Files;

/// What was read of the file.
#[derive(Clone, Copy)]
pub(crate) struct Witnessed<'a> {
    /// The commitment, if a file is named.
    pub(crate) older: Option<Commitment>,
    /// Why it wasn't read.
    pub(crate) fault: Option<RemoteError>,
    /// The path of a file that wasn't read.
    pub(crate) unread: Option<&'a str>,
}

impl<'a> Witnessed<'a> {
    /// Reads the file, if one is named.
    pub(crate) fn read<F: Files>(rt: &F, alloc: Global, state: Option<&'a str>) -> Witnessed<'a> {
        let none = Witnessed {
            older: None,
            fault: None,
            unread: None,
        };
        let Some(path) = state else {
            return none;
        };
        match witnessed_at(rt, alloc, path) {
            Ok(newest) => Witnessed {
                older: Some(newest),
                ..none
            },
            Err(fault) => Witnessed {
                fault: Some(fault),
                unread: Some(path),
                ..none
            },
        }
    }
}
