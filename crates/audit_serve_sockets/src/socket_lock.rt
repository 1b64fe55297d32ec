ghost use Rattle.std.specs.Prelude.{◌≡◌, ◌⊎◌, Ok, OnOk, OnErr};
ghost use Rattle.audit_serve_sockets.specs.Bound.{CallFailed, IsGone};

use crate::system_sockets::SystemSockets;
use audit_disk::{FileIdentity, SystemFile};
use std::alloc::Global;
use std::fs::TryLockError;
use std::io::{self, ErrorKind};

// How often a lock is tried whose file is removed at the same time.
const TRIES: usize = 16;

/// An exclusive lock on a file beside a socket, `SOCKET.lock`, which whoever serves there holds until its end. If
/// nobody holds the lock of an existing file, a program that served there was killed.
#[derive(Drop)]
pub struct SocketLock<F> {
    // The lock is held until the file is dropped.
    file: F,
    path: String,
    identity: FileIdentity,
    // Whether a program that was killed left the file.
    was_left: bool,
    // Whether a socket may be there that the same program left.
    guards_one: bool,
}

/// What was found at a lock's path.
#[derive(Drop)]
pub(crate) enum Taking<F> {
    /// The lock, which is held from now on.
    Taken(SocketLock<F>),
    /// Another program holds it.
    Held,
}

/// An open file of a lock, and whether it existed before.
#[derive(Drop)]
struct Opened<F> {
    file: F,
    existed: bool,
}

impl<F: SystemFile> SocketLock<F> {
    ghost use Rattle.std.specs.Prelude.{◌≡◌, ◌⊎◌, Ok, OnOk, OnErr};
    ghost use Rattle.audit_serve_sockets.specs.Bound.{CallFailed, IsLockGone};

    /// Takes the lock of the socket at this path, without waiting. Its file is made if there is none. A file that isn't
    /// this user's own is an error.
    pub(crate) fn take<R: SystemSockets>(
        rt: &R,
        alloc: Global,
        socket: &str,
    ) -> io::Result<Taking<R::File>>
    where
        R::File: SystemFile,
        ensures fault { OnErr result (CallFailed (R.call_failed rt.now) R.File.facts) }
        ensures held { result ≡ Ok Taking.Held → ((file : R.File) × (R.File.facts file).failed) }
    {
        let path = rt.lock_path(alloc, socket)?;
        for _ in 0..TRIES {
            let Opened { file, existed } = open_lock(rt, path.as_str())?;
            match file.try_lock() {
                Ok(()) => {}
                Err(TryLockError::WouldBlock) => return Ok(Taking::Held),
                Err(TryLockError::Error(error)) => return Err(error),
            }
            let identity = FileIdentity::of(&rt.see_open(&file)?);
            // Whoever held the lock may have removed its file in between.
            if is_at(rt, path.as_str(), identity).is_ok() {
                return Ok(Taking::Taken(SocketLock {
                    file,
                    path,
                    identity,
                    was_left: existed,
                    guards_one: existed,
                }));
            }
        }
        Err(io::Error::from(ErrorKind::AddrInUse))
    }

    /// Removes the file of a lock that another program holds, whose socket isn't there any more.
    pub(crate) fn displace<R: SystemSockets>(rt: &R, alloc: Global, socket: &str) -> io::Result<()>
    where
        R::File: SystemFile,
        ensures { OnErr result (CallFailed (R.call_failed rt.now) R.File.facts) }
    {
        rt.remove_at(rt.lock_path(alloc, socket)?.as_str())
    }

    /// Whether a program that was killed left the lock.
    pub(crate) fn was_left(&self) -> bool {
        self.was_left
    }

    /// Notes that the socket of the lock is this program's own.
    pub(crate) fn has_own_socket(&mut self) {
        self.guards_one = false;
    }

    /// Removes the lock's file, unless it shows that the socket beside it is abandoned, and unlocks it.
    pub fn remove<R: SystemSockets>(self, rt: &R) -> io::Result<()>
        ensures gone { OnOk result (IsLockGone (R.sockets rt.now) self) }
        ensures failed { OnErr result (R.call_failed rt.now) }
    {
        if self.guards_one {
            return Ok(());
        }
        remove_own(rt, self.path.as_str(), self.identity)
    }
}

fn open_lock<R: SystemSockets>(rt: &R, path: &str) -> io::Result<Opened<R::File>>
where
    R::File: SystemFile,
    ensures { OnErr result (R.call_failed rt.now) }
{
    match rt.open_lock(path, true) {
        Ok(file) => Ok(Opened {
            file,
            existed: false,
        }),
        Err(error) if error.kind() == ErrorKind::AlreadyExists => open_existing(rt, path),
        Err(error) => Err(error),
    }
}

fn open_existing<R: SystemSockets>(rt: &R, path: &str) -> io::Result<Opened<R::File>>
where
    R::File: SystemFile,
    ensures { OnErr result (R.call_failed rt.now) }
{
    rt.judge_owned(&rt.see(path)?, rt.own_user()?)?;
    let file = rt.open_lock(path, false)?;
    Ok(Opened {
        file,
        existed: true,
    })
}

// Fails unless a path names the file with this identity.
fn is_at<R: SystemSockets>(rt: &R, path: &str, identity: FileIdentity) -> io::Result<()>
    ensures { OnErr result (R.call_failed rt.now) }
{
    rt.judge_identity(&rt.see(path)?, identity)
}

/// Removes a file if its path still names it. Another file there is kept.
pub(crate) fn remove_own<R: SystemSockets>(
    rt: &R,
    path: &str,
    identity: FileIdentity,
) -> io::Result<()>
    ensures gone { OnOk result (IsGone (R.sockets rt.now) path.now identity) }
    ensures failed { OnErr result (R.call_failed rt.now) }
{
    if rt.has_identity(path, identity) {
        rt.remove_at(path)
    } else {
        Ok(())
    }
}
