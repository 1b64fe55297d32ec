//! What makes the listening sockets of the operating system.
ghost use Rattle.std.specs.Prelude.{◌≡◌, false, Ok, IfOk, OnOk, OnErr};
ghost use Rattle.std.specs.Net.Unix.{unix_listener_raw_fd};
ghost use Rattle.audit_serve_sockets.specs.Bound.{SocketFacts, sockets_of_calls};

use crate::limits::TEXT_LEN;
use crate::owner_only::OwnerOnly;
use audit_disk::{FileIdentity, OWNER_ONLY};
use std::alloc::Global;
use std::fs::{self, File, Files, Metadata, OpenFile, OpenOptions, Permissions};
use std::io::{self, ErrorKind, Read, Write};
use std::net::Net;
use std::os::unix::fs::{MetadataExt, OpenOptionsExt, PermissionsExt};
use std::os::unix::net::{UnixListener, UnixStream};
use std::rt::HostRuntime;
use std::time::Duration;

// What follows a socket's path in the path of its lock.
const LOCK_SUFFIX: &str = ".lock";

/// The calls that make listening sockets, the locks beside them, and connections. Contracts know of a socket, by its
/// descriptor, what the call promises that made it, and nothing else; and that a call failed from that call alone.
pub trait SystemSockets: Files + Net {
    /// What calls established.
    ghost sockets: { Self → SocketFacts };

    /// A call failed.
    ghost call_failed: { Self → Type 0 };

    /// Makes a socket at a path where nothing is, and listens. From the start only its owner can connect, whatever the
    /// umask is.
    fn listen(&self, alloc: Global, path: &str) -> io::Result<UnixListener>
        ensures listens { IfOk result (λ listener.
            (sockets self.now).listens path.now (unix_listener_raw_fd listener)) }
        ensures failed { OnErr result (call_failed self.now) };

    /// Gives the file at a path these permission bits.
    fn permit(&self, path: &str, mode: u32) -> io::Result<()>
        ensures permits { OnOk result ((sockets self.now).permits path.now mode) }
        ensures failed { OnErr result (call_failed self.now) };

    /// The path of the lock of the socket at a path. It fails if memory is refused.
    fn lock_path(&self, alloc: Global, socket: &str) -> io::Result<String>
        ensures { OnErr result (call_failed self.now) };

    /// Opens the file of a lock, for reading and writing: a new one, for its owner alone, where nothing is; or the one
    /// that is there.
    fn open_lock(&self, path: &str, is_new: bool) -> io::Result<Self::File>
        ensures { OnErr result (call_failed self.now) };

    /// Looks at what is at a path, and doesn't follow a link.
    fn see(&self, path: &str) -> io::Result<Metadata>
        ensures { OnErr result (call_failed self.now) };

    /// Looks at an open file.
    fn see_open(&self, file: &Self::File) -> io::Result<Metadata>
        ensures { OnErr result (call_failed self.now) };

    /// The user that the process runs as, to whom its folder in /proc belongs.
    fn own_user(&self) -> io::Result<u32>
        ensures { OnErr result (call_failed self.now) };

    /// Judges whether what was seen is a file of this user. It fails if it isn't.
    fn judge_owned(&self, found: &Metadata, user: u32) -> io::Result<()>
        ensures { OnErr result (call_failed self.now) };

    /// Judges whether what was seen is the file with this identity. It fails if it isn't.
    fn judge_identity(&self, found: &Metadata, identity: FileIdentity) -> io::Result<()>
        ensures { OnErr result (call_failed self.now) };

    /// Whether the file at a path has this identity. One that can't be looked at hasn't.
    fn has_identity(&self, path: &str, identity: FileIdentity) -> bool
        ensures { result ≡ false → (sockets self.now).lacks path.now identity };

    /// Removes the file at a path.
    fn remove_at(&self, path: &str) -> io::Result<()>
        ensures removes { OnOk result ((sockets self.now).removes path.now) }
        ensures failed { OnErr result (call_failed self.now) };

    /// Waits for the next connection at a listening socket, and accepts it.
    fn accept_at(&self, listener: &UnixListener) -> io::Result<UnixStream>
        ensures { OnErr result (call_failed self.now) };

    /// Connects to the socket at a path.
    fn connect_to(&self, path: &str) -> io::Result<UnixStream>
        ensures connects { OnOk result ((sockets self.now).connects path.now) }
        ensures failed { OnErr result (call_failed self.now) };

    /// A random text.
    fn random_text(&self) -> io::Result<[u8; TEXT_LEN]>
        ensures { OnErr result (call_failed self.now) };

    /// Sends a text on a connection.
    fn send_text(&self, stream: &mut UnixStream, text: &[u8; TEXT_LEN]) -> io::Result<()>
        ensures { OnErr result (call_failed self.now) };

    /// Whether this text arrives on a connection within a second. That it doesn't is a failure, too.
    fn hears_text(&self, stream: &mut UnixStream, text: &[u8; TEXT_LEN]) -> io::Result<bool>
        ensures failed { OnErr result (call_failed self.now) }
        ensures other { result ≡ Ok false → call_failed self.now };
}

impl SystemSockets for HostRuntime {
    ghost sockets = { λ _. sockets_of_calls };

    ghost call_failed = { λ _. Unit {0} };

    fn listen(&self, alloc: Global, path: &str) -> io::Result<UnixListener> {
        UnixListener::bind(&OwnerOnly::new(self, alloc), path)
    }

    fn permit(&self, path: &str, mode: u32) -> io::Result<()> {
        fs::set_permissions(self, path, Permissions::from_mode(mode))
    }

    fn lock_path(&self, alloc: Global, socket: &str) -> io::Result<String> {
        Ok(format!(in alloc; "{socket}{LOCK_SUFFIX}")?)
    }

    fn open_lock(&self, path: &str, is_new: bool) -> io::Result<File> {
        let mut options = OpenOptions::new();
        options.read(true).write(true).create_new(is_new);
        options.mode(OWNER_ONLY).open(self, path)
    }

    fn see(&self, path: &str) -> io::Result<Metadata> {
        fs::symlink_metadata(self, path)
    }

    fn see_open(&self, file: &File) -> io::Result<Metadata> {
        OpenFile::metadata(file)
    }

    fn own_user(&self) -> io::Result<u32> {
        Ok(fs::metadata(self, "/proc/self")?.uid())
    }

    fn judge_owned(&self, found: &Metadata, user: u32) -> io::Result<()> {
        in_use_unless(found.is_file() && found.uid() == user)
    }

    fn judge_identity(&self, found: &Metadata, identity: FileIdentity) -> io::Result<()> {
        in_use_unless(FileIdentity::of(found) == identity)
    }

    fn has_identity(&self, path: &str, identity: FileIdentity) -> bool {
        match self.see(path) {
            Ok(found) => FileIdentity::of(&found) == identity,
            Err(_) => false,
        }
    }

    fn remove_at(&self, path: &str) -> io::Result<()> {
        fs::remove_file(self, path)
    }

    fn accept_at(&self, listener: &UnixListener) -> io::Result<UnixStream> {
        let (stream, _) = listener.accept()?;
        Ok(stream)
    }

    fn connect_to(&self, path: &str) -> io::Result<UnixStream> {
        UnixStream::connect(self, path)
    }

    fn random_text(&self) -> io::Result<[u8; TEXT_LEN]> {
        let mut text = [0; TEXT_LEN];
        fs::open(self, "/dev/urandom")?.read_exact(&mut text)?;
        Ok(text)
    }

    fn send_text(&self, stream: &mut UnixStream, text: &[u8; TEXT_LEN]) -> io::Result<()> {
        stream.write_all(text)
    }

    fn hears_text(&self, stream: &mut UnixStream, text: &[u8; TEXT_LEN]) -> io::Result<bool> {
        let mut arrived = [0; TEXT_LEN];
        stream.set_read_timeout(Some(Duration::from_secs(1)))?;
        let read = stream.read_exact(&mut arrived);
        stream.set_read_timeout(None)?;
        Ok(read.is_ok() && arrived == *text)
    }
}

// The error of a path that another program uses, unless this holds.
fn in_use_unless(holds: bool) -> io::Result<()> {
    if holds {
        return Ok(());
    }
    Err(io::Error::from(ErrorKind::AddrInUse))
}
