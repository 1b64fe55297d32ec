use audit_disk::OWNER_ONLY;
use std::alloc::{Allocator, Global};
use std::fs::{Files, Metadata, OpenOptions, Permissions};
use std::io;
use std::net::{Net, SocketAddr};
use std::os::fd::{AsRawFd, BorrowedFd, OwnedFd};
use std::os::unix::fs::PermissionsExt;
use std::os::unix::net::{self as unix, UnixStream};

/// A runtime that creates a socket's file with access only for its owner, from the start and whatever the umask is.
/// Everything else is done by the runtime that it wraps.
#[derive(Drop)]
pub(crate) struct OwnerOnly<'a, R> {
    rt: &'a R,
    alloc: Global,
}

impl<'a, R> OwnerOnly<'a, R> {
    pub(crate) fn new(rt: &'a R, alloc: Global) -> OwnerOnly<'a, R> {
        OwnerOnly { rt, alloc }
    }
}

impl<R: Files> Files for OwnerOnly<'_, R> {
    type File = R::File;

    type Dir = R::Dir;

    fn open_file(&self, how: &OpenOptions, path: &str) -> io::Result<R::File> {
        self.rt.open_file(how, path)
    }

    fn open_dir(&self, path: &str) -> io::Result<R::Dir> {
        self.rt.open_dir(path)
    }

    fn metadata(&self, path: &str) -> io::Result<Metadata> {
        self.rt.metadata(path)
    }

    fn symlink_metadata(&self, path: &str) -> io::Result<Metadata> {
        self.rt.symlink_metadata(path)
    }

    fn copy(&self, from: &str, to: &str) -> io::Result<u64> {
        self.rt.copy(from, to)
    }

    fn rename(&self, from: &str, to: &str) -> io::Result<()> {
        self.rt.rename(from, to)
    }

    fn remove_file(&self, path: &str) -> io::Result<()> {
        self.rt.remove_file(path)
    }

    fn create_dir(&self, path: &str) -> io::Result<()> {
        self.rt.create_dir(path)
    }

    fn remove_dir(&self, path: &str) -> io::Result<()> {
        self.rt.remove_dir(path)
    }

    fn remove_dir_all<B: Allocator>(&self, alloc: B, path: &str) -> io::Result<()> {
        self.rt.remove_dir_all(alloc, path)
    }

    // Linux derives the permissions of a socket's file from those of the socket itself, less the umask.
    fn bind_unix(&self, socket: BorrowedFd<'_>, address: &unix::SocketAddr) -> io::Result<()> {
        let descriptor = socket.as_raw_fd();
        let path = format!(in self.alloc; "/proc/self/fd/{descriptor}")?;
        self.rt
            .set_permissions(path.as_str(), Permissions::from_mode(OWNER_ONLY))?;
        self.rt.bind_unix(socket, address)
    }
}

impl<R: Net> Net for OwnerOnly<'_, R> {
    type Stream = R::Stream;

    type Listener = R::Listener;

    fn bind(&self, address: SocketAddr) -> io::Result<R::Listener> {
        self.rt.bind(address)
    }

    fn connect(&self, address: SocketAddr) -> io::Result<R::Stream> {
        self.rt.connect(address)
    }

    fn connect_unix(&self, address: &unix::SocketAddr) -> io::Result<UnixStream> {
        self.rt.connect_unix(address)
    }

    fn unix_socket(&self) -> io::Result<OwnedFd> {
        self.rt.unix_socket()
    }
}
