//! Outputs of commands that keep a store open.
ghost use Rattle.std.specs.Prelude.{◌≡◌, ◌⊎◌, true, false, IsErr};
ghost use Rattle.std.specs.Io.{WritesAtMost};
ghost use Rattle.std.specs.Io.KnownBytes.{Keeps, WriteAppends};

use crate::store_watch::{StorePlaces, StoreWatch};
use audit_disk::FileIdentity;
use std::io::{self, ErrorKind, Write};
use std::time::{Clock, Duration, Instant};

/// An output that takes nothing more once the store isn't in its place, so that no event is acknowledged there. It looks
/// before it is written to, once a second.
#[derive(Drop)]
pub struct WatchedOutput<'a, 'b, R, W> {
    output: &'b mut W,
    // The store, and where it is expected.
    rt: &'a R,
    path: &'a str,
    identity: FileIdentity,
    sectors: u64,
    // When it last looked.
    looked: Option<Instant>,
    is_replaced: bool,
}

impl<'a, 'b, R: StorePlaces + Clock, W: Write> WatchedOutput<'a, 'b, R, W> {
    ghost use Rattle.audit_cli_base.specs.Watched.{after_reference, watched_bytes};

    /// An output of a command whose store is watched.
    pub fn new(watch: StoreWatch<'a, R>, output: &'b mut W) -> WatchedOutput<'a, 'b, R, W>
        ensures same_reference { result.output.ghost_name ≡ output.entry.ghost_name }
        ensures bytes { watched_bytes W.contents result
            ≡ after_reference output.entry.ghost_name (W.contents output.old) }
    {
        let StoreWatch {
            rt,
            path,
            identity,
            sectors,
        } = watch;
        WatchedOutput {
            output,
            rt,
            path,
            identity,
            sectors,
            looked: None,
            is_replaced: false,
        }
    }

    /// Whether the store isn't in its place, now or when it was last looked.
    pub fn is_replaced(&mut self) -> bool
        ensures bytes { watched_bytes W.contents self.new ≡ watched_bytes W.contents self.old }
        // Only a look finds that.
        ensures found { result ≡ true → (self.old.is_replaced ≡ true)
            ⊎ R.lacks self.new.rt.now self.new.path.now self.new.identity self.new.sectors }
    {
        self.is_replaced || !self.look()
    }

    fn look(&mut self) -> bool
        ensures output { self.new.output ≡ self.old.output }
        ensures replaced { result ≡ false → self.new.is_replaced ≡ true }
        ensures stays { self.old.is_replaced ≡ true → self.new.is_replaced ≡ true }
        ensures gone { result ≡ false
            → R.lacks self.new.rt.now self.new.path.now self.new.identity self.new.sectors }
    {
        let is_in_place = self.rt.has_store(self.path, self.identity, self.sectors);
        self.is_replaced |= !is_in_place;
        is_in_place
    }

    // Whether the store is in its place, as far as was looked in the last second.
    fn lets_write(&mut self) -> bool
        ensures output { self.new.output ≡ self.old.output }
        ensures gone { self.old.is_replaced ≡ true → result ≡ false }
        ensures replaced { result ≡ false → self.new.is_replaced ≡ true }
        ensures stays { self.old.is_replaced ≡ true → self.new.is_replaced ≡ true }
    {
        if self.is_replaced {
            return false;
        }
        let Ok(now) = Instant::now(self.rt) else {
            return self.look();
        };
        if let Some(looked) = self.looked
            && now.duration_since(looked) < looking_time()
        {
            return true;
        }
        self.looked = Some(now);
        self.look()
    }
}

// Once the store isn't in its place, no write reaches the output any more.
impl<R: StorePlaces + Clock, W: Write> Write for WatchedOutput<'_, '_, R, W> {
    ghost use Rattle.audit_cli_base.specs.Watched.{watched_bytes};

    ghost contents = { watched_bytes W.contents };

    fn write(&mut self, bytes: &[u8]) -> io::Result<usize> {
        let is_in_place = self.lets_write();
        write_in_place(is_in_place, self.output, bytes)
    }

    fn flush(&mut self) -> io::Result<()> {
        self.output.flush()
    }
}

// After which time it is looked again.
fn looking_time() -> Duration {
    Duration::from_secs(1)
}

// Writes to an output, unless the store isn't in its place.
fn write_in_place<W: Write>(is_in_place: bool, output: &mut W, bytes: &[u8]) -> io::Result<usize>
    ensures bound { WritesAtMost result bytes.now }
    ensures bytes { WriteAppends (W.contents output.old) (W.contents output.new) result bytes.now }
    ensures gone { is_in_place ≡ false → IsErr result }
    ensures unwritten { is_in_place ≡ false → Keeps (W.contents output.old) (W.contents output.new) }
{
    if is_in_place {
        output.write(bytes)
    } else {
        Err(io::Error::from(ErrorKind::Other))
    }
}
