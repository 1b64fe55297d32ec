//! The bytes of a witness's file.
ghost use Rattle.std.specs.Prelude.{◌≡◌, ◌⊎◌, ◌++◌, Option, Some, None, List, ℕ, length, take, drop};
ghost use Rattle.std.specs.Prelude.{IfOk, IfErr, IfSome, OnOk, OnErr};
ghost use Rattle.audit_cli_witness.specs.StateFaults.{HasStateCause, line_feeds};

use crate::state_lock::sync_folder;
use audit_cli_connection::RemoteError;
use audit_text::read_input;
use std::alloc::Global;
use std::fs::{Files, OpenFile};
use std::io::{self, Read, Seek, SeekFrom, Write};

// How many bytes are read at a time to number the lines before them.
const PIECE_LEN: usize = 1 << 12;

/// The bytes of a witness's file. That a call failed, and that bytes were put and synced, are facts of the calls alone.
pub trait StateText: Drop {
    /// The bytes, where they are known.
    ghost text: { Self → Option (List ℕ) };

    /// The last call failed.
    ghost failed: { Self → Type 0 };

    /// The last call put these bytes in place of those from this place on, and synced them.
    ghost synced: { Self → ℕ → List ℕ → Type 0 };

    /// Returns their number.
    fn length(&mut self) -> io::Result<u64>
        ensures kept { text self.new ≡ text self.old }
        ensures found { IfOk result (λ number. IfSome (text self.old) (λ bytes. number ≡ length bytes)) }
        ensures failed { OnErr result (failed self.new) };

    /// Reads all bytes from a place on.
    fn read_from(&mut self, alloc: Global, start: u64) -> Result<Vec<u8>, RemoteError>
        ensures kept { text self.new ≡ text self.old }
        ensures read { IfOk result (λ rest. IfSome (text self.old) (λ bytes. rest.items ≡ drop start bytes)) }
        ensures failed { IfErr result (HasStateCause (failed self.new)) };

    /// Returns how many line feeds are among the first bytes.
    fn feeds_before(&mut self, place: u64) -> io::Result<u64>
        ensures kept { text self.new ≡ text self.old }
        ensures found { IfOk result (λ number. IfSome (text self.old)
            (λ bytes. number ≡ line_feeds (take place bytes))) }
        ensures failed { OnErr result (failed self.new) };

    /// Puts bytes in place of those from a place on, and syncs them. After an error they are as before, or cut off
    /// there, or unknown.
    fn replace_from(&mut self, start: u64, bytes: &[u8]) -> io::Result<()>
        ensures done { OnOk result (IfSome (text self.old)
            (λ old. text self.new ≡ Some (take start old ++ bytes.now))) }
        ensures part { OnErr result (IfSome (text self.old) (λ old. (text self.new ≡ Some old)
            ⊎ ((text self.new ≡ Some (take start old)) ⊎ (text self.new ≡ None)))) }
        ensures unknown { text self.old ≡ None → text self.new ≡ None }
        ensures synced { OnOk result (synced self.new start bytes.now) }
        ensures failed { OnErr result (failed self.new) };
}

/// A file of the operating system, open and locked. Nothing is known of its bytes.
#[derive(Drop)]
pub struct StateAt<'a, R: Files> {
    /// What opened it.
    pub rt: &'a R,
    /// Its path.
    pub path: &'a str,
    /// The file.
    pub file: R::File,
}

impl<R: Files> StateText for StateAt<'_, R> {
    ghost text = { λ _. None };

    ghost failed = { λ _. Unit {0} };

    ghost synced = { λ _ _ _. Unit {0} };

    fn length(&mut self) -> io::Result<u64> {
        self.file.seek(SeekFrom::End(0))
    }

    fn read_from(&mut self, alloc: Global, start: u64) -> Result<Vec<u8>, RemoteError> {
        self.file.seek(SeekFrom::Start(start))?;
        Ok(read_input(alloc, &mut self.file)?)
    }

    fn feeds_before(&mut self, place: u64) -> io::Result<u64> {
        self.file.seek(SeekFrom::Start(0))?;
        feeds_in(&mut self.file, place)
    }

    // After an error the bytes are cut off again, if the system allows it. The name is synced too.
    fn replace_from(&mut self, start: u64, bytes: &[u8]) -> io::Result<()> {
        if let Err(error) = write_at_end(&mut self.file, start, bytes) {
            let _ = self.file.set_len(start);
            return Err(error);
        }
        sync_folder(self.rt, self.path)
    }
}

fn write_at_end<F: OpenFile + Write + Seek>(file: &mut F, end: u64, line: &[u8]) -> io::Result<()> {
    file.set_len(end)?;
    file.seek(SeekFrom::Start(end))?;
    file.write_all(line)?;
    file.sync_all()
}

// How many line feeds are among the next bytes of a file.
fn feeds_in<F: Read>(file: &mut F, bytes: u64) -> io::Result<u64> {
    let mut piece = [0; PIECE_LEN];
    let mut feeds = 0u64;
    let mut left = bytes;
    for _ in 0..bytes {
        let most = left.min(PIECE_LEN as u64) as usize;
        let taken = file.read(&mut piece[..most])?;
        if taken == 0 {
            return Ok(feeds);
        }
        let ended = piece[..taken].iter().filter(|byte| **byte == b'\n').count();
        feeds = feeds.saturating_add(ended as u64);
        left = left.saturating_sub(taken as u64);
    }
    Ok(feeds)
}
