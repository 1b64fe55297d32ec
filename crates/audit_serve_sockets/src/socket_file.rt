ghost use Rattle.std.specs.Prelude.{◌≡◌, ◌⊎◌, IfOk, OnErr};
ghost use Rattle.std.specs.Net.Unix.{unix_listener_raw_fd};
ghost use Rattle.audit_disk.specs.declared.files.TheConstants.{OWNER_ONLY};
ghost use Rattle.audit_serve_sockets.specs.Bound.{CallFailed, IsBound, descriptor_of_socket, mode_of_name};
ghost use Rattle.audit_serve_sockets.specs.Bound.{mode_of_socket};

use crate::socket_lock::{SocketLock, Taking, remove_own};
use crate::system_sockets::SystemSockets;
use audit_disk::{FileIdentity, OWNER_ONLY, SystemFile};
use std::alloc::Global;
use std::io::{self, ErrorKind};
use std::os::unix::fs::{FileTypeExt, MetadataExt};
use std::os::unix::net::{UnixListener, UnixStream};

/// A Unix socket at a path, on which connections arrive.
#[derive(Drop)]
pub struct SocketFile {
    listener: UnixListener,
    name: SocketName,
}

/// The file of a socket that this program made, with the permission bits that it was given.
#[derive(Clone, Copy)]
pub struct SocketName {
    identity: FileIdentity,
    mode: u32,
}

impl SocketName {
    ghost use Rattle.std.specs.Prelude.{◌≡◌, OnOk, OnErr};
    ghost use Rattle.audit_serve_sockets.specs.Bound.{IsNameGone, mode_of_name};

    /// The permission bits that the socket's file was given.
    pub fn mode(&self) -> u32
        ensures { result ≡ mode_of_name self.now }
    {
        self.mode
    }

    /// Removes the socket's file, if its path still names it. Another file there is kept.
    pub fn remove<R: SystemSockets>(self, rt: &R, path: &str) -> io::Result<()>
        ensures gone { OnOk result (IsNameGone (R.sockets rt.now) path.now self) }
        ensures failed { OnErr result (R.call_failed rt.now) }
    {
        remove_own(rt, path, self.identity)
    }
}

impl SocketFile {
    ghost use Rattle.std.specs.Prelude.{◌≡◌, IfOk, OnOk, OnErr};
    ghost use Rattle.std.specs.Net.Unix.{unix_listener_raw_fd};
    ghost use Rattle.audit_serve_sockets.specs.Bound.{CallFailed, IsBound, descriptor_of_socket, mode_of_name};
    ghost use Rattle.audit_serve_sockets.specs.Bound.{IsLockGone, IsNameGone, mode_of_socket};

    /// Makes the socket's file, and takes the lock beside it (`SOCKET.lock`) until its end. Only its owner has access
    /// when it is created; then `mode` is set if it differs. A socket of this user beside a lock that nobody holds is
    /// replaced: a program that was killed leaves such files. Any other existing file is an error, and is kept.
    pub fn bind<R: SystemSockets>(
        rt: &R,
        alloc: Global,
        path: &str,
        mode: u32,
    ) -> io::Result<(SocketFile, SocketLock<R::File>)>
    where
        R::File: SystemFile,
        ensures mode { IfOk result (λ bound. mode_of_socket bound.0 ≡ mode) }
        // It listens at this path, and its file has this mode.
        ensures listens { IfOk result (λ bound. IsBound (R.sockets rt.now) path.now mode bound.0) }
        // An error needs a call that failed.
        ensures fault { OnErr result (CallFailed (R.call_failed rt.now) R.File.facts) }
    {
        match SocketLock::<R::File>::take(rt, alloc, path)? {
            Taking::Taken(mut lock) => match bind_under(rt, alloc, path, mode, lock.was_left()) {
                Ok(bound) => {
                    lock.has_own_socket();
                    Ok((bound, lock))
                }
                Err(error) => {
                    let _ = lock.remove(rt);
                    Err(error)
                }
            },
            Taking::Held => bind_displaced(rt, alloc, path, mode),
        }
    }

    /// Makes a further socket, which the lock of another one covers. Without a lock nothing is replaced.
    pub fn bind_beside<R: SystemSockets>(
        rt: &R,
        alloc: Global,
        path: &str,
        mode: u32,
        lock: Option<&SocketLock<R::File>>,
    ) -> io::Result<SocketFile>
    where
        R::File: SystemFile,
        ensures mode { IfOk result (λ bound. mode_of_socket bound ≡ mode) }
        ensures listens { IfOk result (λ bound. IsBound (R.sockets rt.now) path.now mode bound) }
        ensures failed { OnErr result (R.call_failed rt.now) }
    {
        let was_left = match lock {
            Some(lock) => lock.was_left(),
            None => false,
        };
        bind_under(rt, alloc, path, mode, was_left)
    }

    /// Waits for the next connection.
    pub fn accept<R: SystemSockets>(&self, rt: &R) -> io::Result<UnixStream>
        ensures failed { OnErr result (R.call_failed rt.now) }
    {
        rt.accept_at(&self.listener)
    }

    /// The listening socket, and its file, which is left to the caller to remove.
    pub fn into_parts(self) -> (UnixListener, SocketName)
        ensures mode { mode_of_name result.1 ≡ mode_of_socket self }
        ensures same { unix_listener_raw_fd result.0 ≡ descriptor_of_socket self }
    {
        (self.listener, self.name)
    }

    /// Removes the socket's file and its lock, as far as they are still this program's. The first error is returned,
    /// after both were tried.
    pub fn remove<R: SystemSockets>(
        self,
        rt: &R,
        path: &str,
        lock: SocketLock<R::File>,
    ) -> io::Result<()>
    where
        R::File: SystemFile,
        ensures gone { OnOk result (IsNameGone (R.sockets rt.now) path.now self.name) }
        ensures unlocked { OnOk result (IsLockGone (R.sockets rt.now) lock) }
        ensures failed { OnErr result (R.call_failed rt.now) }
    {
        let removed = self.name.remove(rt, path);
        removed.and(lock.remove(rt))
    }
}

// Makes a socket's file under a lock. If a program that was killed left the lock, it left the socket there, too.
fn bind_under<R: SystemSockets>(
    rt: &R,
    alloc: Global,
    path: &str,
    mode: u32,
    was_left: bool,
) -> io::Result<SocketFile>
    ensures mode { IfOk result (λ bound. mode_of_socket bound ≡ mode) }
    ensures listens { IfOk result (λ bound. IsBound (R.sockets rt.now) path.now mode bound) }
    ensures failed { OnErr result (R.call_failed rt.now) }
{
    let bound = bind_new(rt, alloc, path, mode);
    if !is_in_use(&bound) || !was_left || !is_own_socket(rt, path).unwrap_or(false) {
        return bound;
    }
    rt.remove_at(path)?;
    bind_new(rt, alloc, path, mode)
}

// Makes a socket's file although its lock is held, if there is none: somebody removed that of the program that holds
// the lock. That program goes on, and the new socket gets a lock of its own.
fn bind_displaced<R: SystemSockets>(
    rt: &R,
    alloc: Global,
    path: &str,
    mode: u32,
) -> io::Result<(SocketFile, SocketLock<R::File>)>
where
    R::File: SystemFile,
    ensures mode { IfOk result (λ bound. mode_of_socket bound.0 ≡ mode) }
    ensures listens { IfOk result (λ bound. IsBound (R.sockets rt.now) path.now mode bound.0) }
    ensures fault { OnErr result (CallFailed (R.call_failed rt.now) R.File.facts) }
{
    let bound = bind_new(rt, alloc, path, mode)?;
    match take_anew(rt, alloc, path) {
        Ok(mut lock) => {
            lock.has_own_socket();
            Ok((bound, lock))
        }
        Err(error) => {
            let _ = bound.name.remove(rt, path);
            Err(error)
        }
    }
}

fn take_anew<R: SystemSockets>(rt: &R, alloc: Global, path: &str) -> io::Result<SocketLock<R::File>>
where
    R::File: SystemFile,
    ensures { OnErr result (CallFailed (R.call_failed rt.now) R.File.facts) }
{
    SocketLock::<R::File>::displace(rt, alloc, path)?;
    match SocketLock::<R::File>::take(rt, alloc, path)? {
        Taking::Taken(lock) => Ok(lock),
        Taking::Held => Err(io::Error::from(ErrorKind::AddrInUse)),
    }
}

// Makes a socket's file if no file exists at the path.
fn bind_new<R: SystemSockets>(
    rt: &R,
    alloc: Global,
    path: &str,
    mode: u32,
) -> io::Result<SocketFile>
    ensures mode { IfOk result (λ bound. mode_of_socket bound ≡ mode) }
    ensures listens { IfOk result (λ bound. IsBound (R.sockets rt.now) path.now mode bound) }
    ensures failed { OnErr result (R.call_failed rt.now) }
{
    let listener = rt.listen(alloc, path)?;
    match named(rt, path, mode) {
        Ok(name) => Ok(SocketFile { listener, name }),
        Err(error) => {
            let _ = rt.remove_at(path);
            Err(error)
        }
    }
}

// The file of a socket that was just made, with these permissions.
fn named<R: SystemSockets>(rt: &R, path: &str, mode: u32) -> io::Result<SocketName>
    ensures mode { IfOk result (λ name. mode_of_name name ≡ mode) }
    ensures permitted { IfOk result (λ _. (mode ≡ OWNER_ONLY) ⊎ (R.sockets rt.now).permits path.now mode) }
    ensures failed { OnErr result (R.call_failed rt.now) }
{
    let identity = FileIdentity::of(&rt.see(path)?);
    if mode != OWNER_ONLY {
        rt.permit(path, mode)?;
    }
    Ok(SocketName { identity, mode })
}

// Returns whether making the socket failed because a file exists at its path.
fn is_in_use(bound: &io::Result<SocketFile>) -> bool {
    match bound {
        Ok(_) => false,
        Err(error) => error.kind() == ErrorKind::AddrInUse,
    }
}

fn is_own_socket<R: SystemSockets>(rt: &R, path: &str) -> io::Result<bool> {
    let found = rt.see(path)?;
    Ok(found.file_type().is_socket() && found.uid() == rt.own_user()?)
}
