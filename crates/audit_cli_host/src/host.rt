use crate::dial::Dial;
use crate::noted_file::NotedFile;
use crate::notes::Notes;
use audit_disk::{FileIdentity, SystemFile, SystemFiles};
use audit_serve_sockets::{SystemSockets, TEXT_LEN};
use mio::net::UnixStream as Dialed;
use std::alloc::{Allocator, Global};
use std::fs::{Files, Metadata, OpenFile, OpenOptions, Permissions, TryLockError};
use std::io::{self, ErrorKind};
use std::net::{Net, SocketAddr};
use std::os::fd::{BorrowedFd, OwnedFd};
use std::os::unix::net::{self as unix, UnixListener, UnixStream};
use std::path::PathBuf;
use std::time::{Clock, Duration};

/// The operating system's files and sockets. Each failure is noted for the line that explains it.
#[derive(Drop)]
pub struct Host<'n, 'w, R> {
    rt: &'n R,
    notes: &'n Notes<'w>,
}

impl<'n, 'w, R> Host<'n, 'w, R> {
    /// Wraps the runtime, with a place for notes.
    pub fn new(rt: &'n R, notes: &'n Notes<'w>) -> Host<'n, 'w, R> {
        Host { rt, notes }
    }

    ghost use Rattle.std.specs.Prelude.{◌≡◌, IfOk, OnErr, IsErr, Ok};
    ghost use Rattle.audit_cli_host.specs.NotedFile.{file_within};

    // Returns the result of a call about a path, after noting its error.
    fn noted<T>(&self, path: &str, outcome: io::Result<T>) -> io::Result<T>
        ensures { result ≡ outcome }
    {
        self.notes.watch(self.notes.subject_of(path), &outcome);
        outcome
    }

    // Notes how opening what is at a path went, and wraps the file.
    fn opened<F: OpenFile>(
        &self,
        path: &str,
        opened: io::Result<F>,
    ) -> io::Result<NotedFile<'n, 'w, F>>
        ensures opened { IfOk result (λ noted. opened ≡ Ok (file_within noted)) }
        ensures failed { OnErr result (IsErr opened) }
    {
        let file = self.noted(path, opened)?;
        self.notes.forget();
        let subject = self.notes.subject_of(path);
        let total = if self.notes.is_length_shown(subject) {
            length_of(&file)
        } else {
            None
        };
        Ok(NotedFile::new(file, subject, self.notes).with_total(total))
    }
}

impl<R: SystemFiles> SystemFiles for Host<'_, '_, R>
where
    R::File: SystemFile,
{
    ghost synced = { λ host folder. R.synced host.rt.now folder };

    ghost failed = { λ host. R.failed host.rt.now };

    fn look(&self, path: &str) -> io::Result<Metadata> {
        self.noted(path, self.rt.look(path))
    }

    fn look_if_any(&self, path: &str) -> io::Result<Option<Metadata>> {
        self.noted(path, self.rt.look_if_any(path))
    }

    // That what is there can't be a device is no failure of a call.
    fn judge(&self, found: &Metadata, to_write: bool) -> io::Result<()> {
        self.rt.judge(found, to_write)
    }

    fn text_if_any(&self, alloc: Global, path: &str) -> io::Result<Option<String>> {
        self.noted(path, self.rt.text_if_any(alloc, path))
    }

    fn open_to_write(&self, path: &str) -> io::Result<Self::File> {
        self.opened(path, self.rt.open_to_write(path))
    }

    fn open_to_read(&self, path: &str) -> io::Result<Self::File> {
        self.opened(path, self.rt.open_to_read(path))
    }

    fn make_file(&self, path: &str, mode: u32) -> io::Result<Self::File> {
        self.opened(path, self.rt.make_file(path, mode))
    }

    fn sync_folder(&self, path: &str) -> io::Result<()> {
        self.noted(path, self.rt.sync_folder(path))
    }
}

impl<'n, 'w, R: Files> Files for Host<'n, 'w, R>
where
    R::File: SystemFile,
{
    type File = NotedFile<'n, 'w, R::File>;

    type Dir = R::Dir;

    fn open_file(&self, how: &OpenOptions, path: &str) -> io::Result<NotedFile<'n, 'w, R::File>> {
        self.opened(path, self.rt.open_file(how, path))
    }

    fn open_dir(&self, path: &str) -> io::Result<R::Dir> {
        self.noted(path, self.rt.open_dir(path))
    }

    fn metadata(&self, path: &str) -> io::Result<Metadata> {
        self.noted(path, self.rt.metadata(path))
    }

    fn symlink_metadata(&self, path: &str) -> io::Result<Metadata> {
        self.noted(path, self.rt.symlink_metadata(path))
    }

    fn copy(&self, from: &str, to: &str) -> io::Result<u64> {
        self.noted(to, self.rt.copy(from, to))
    }

    // Every file that replaces another gets its name here. What another program has locked isn't replaced, and neither is
    // a device: that is `AlreadyExists`.
    fn rename(&self, from: &str, to: &str) -> io::Result<()> {
        self.noted(to, free_to_replace(self.rt, to))?;
        self.noted(to, self.rt.rename(from, to))
    }

    fn hard_link(&self, original: &str, link: &str) -> io::Result<()> {
        self.noted(link, self.rt.hard_link(original, link))
    }

    fn remove_file(&self, path: &str) -> io::Result<()> {
        self.noted(path, self.rt.remove_file(path))
    }

    fn create_dir(&self, path: &str) -> io::Result<()> {
        self.noted(path, self.rt.create_dir(path))
    }

    fn remove_dir(&self, path: &str) -> io::Result<()> {
        self.noted(path, self.rt.remove_dir(path))
    }

    fn remove_dir_all<B: Allocator>(&self, alloc: B, path: &str) -> io::Result<()> {
        self.noted(path, self.rt.remove_dir_all(alloc, path))
    }

    fn canonicalize<B: Allocator>(&self, alloc: B, path: &str) -> io::Result<PathBuf<B>> {
        self.noted(path, self.rt.canonicalize(alloc, path))
    }

    // It isn't a failure if the path isn't a link.
    fn read_link<B: Allocator>(&self, alloc: B, path: &str) -> io::Result<PathBuf<B>> {
        self.rt.read_link(alloc, path)
    }

    fn set_permissions(&self, path: &str, permissions: Permissions) -> io::Result<()> {
        self.noted(path, self.rt.set_permissions(path, permissions))
    }

    fn bind_unix(&self, socket: BorrowedFd<'_>, address: &unix::SocketAddr) -> io::Result<()> {
        self.noted(path_of(address), self.rt.bind_unix(socket, address))
    }
}

impl<R: SystemSockets> SystemSockets for Host<'_, '_, R>
where
    R::File: SystemFile,
{
    ghost sockets = { λ host. R.sockets host.rt.now };

    ghost call_failed = { λ host. R.call_failed host.rt.now };

    // A server opens its store before it makes its sockets.
    fn listen(&self, alloc: Global, path: &str) -> io::Result<UnixListener> {
        self.notes.end_opening();
        self.noted(path, self.rt.listen(alloc, path))
    }

    fn permit(&self, path: &str, mode: u32) -> io::Result<()> {
        self.noted(path, self.rt.permit(path, mode))
    }

    fn lock_path(&self, alloc: Global, socket: &str) -> io::Result<String> {
        self.rt.lock_path(alloc, socket)
    }

    fn open_lock(&self, path: &str, is_new: bool) -> io::Result<Self::File> {
        self.opened(path, self.rt.open_lock(path, is_new))
    }

    fn see(&self, path: &str) -> io::Result<Metadata> {
        self.noted(path, self.rt.see(path))
    }

    fn see_open(&self, file: &Self::File) -> io::Result<Metadata> {
        file.noted(self.rt.see_open(file.inner()))
    }

    fn own_user(&self) -> io::Result<u32> {
        self.noted("/proc/self", self.rt.own_user())
    }

    // That another program's file is there is no failure of a call.
    fn judge_owned(&self, found: &Metadata, user: u32) -> io::Result<()> {
        self.rt.judge_owned(found, user)
    }

    fn judge_identity(&self, found: &Metadata, identity: FileIdentity) -> io::Result<()> {
        self.rt.judge_identity(found, identity)
    }

    fn has_identity(&self, path: &str, identity: FileIdentity) -> bool {
        self.rt.has_identity(path, identity)
    }

    fn remove_at(&self, path: &str) -> io::Result<()> {
        self.noted(path, self.rt.remove_at(path))
    }

    fn accept_at(&self, listener: &UnixListener) -> io::Result<UnixStream> {
        self.rt.accept_at(listener)
    }

    fn connect_to(&self, path: &str) -> io::Result<UnixStream> {
        self.noted(path, self.rt.connect_to(path))
    }

    fn random_text(&self) -> io::Result<[u8; TEXT_LEN]> {
        self.noted("/dev/urandom", self.rt.random_text())
    }

    fn send_text(&self, stream: &mut UnixStream, text: &[u8; TEXT_LEN]) -> io::Result<()> {
        self.rt.send_text(stream, text)
    }

    fn hears_text(&self, stream: &mut UnixStream, text: &[u8; TEXT_LEN]) -> io::Result<bool> {
        self.rt.hears_text(stream, text)
    }
}

impl<R: Net> Net for Host<'_, '_, R> {
    type Stream = R::Stream;

    type Listener = R::Listener;

    fn bind(&self, address: SocketAddr) -> io::Result<R::Listener> {
        self.rt.bind(address)
    }

    fn connect(&self, address: SocketAddr) -> io::Result<R::Stream> {
        self.rt.connect(address)
    }

    fn connect_unix(&self, address: &unix::SocketAddr) -> io::Result<UnixStream> {
        self.noted(path_of(address), self.rt.connect_unix(address))
    }

    fn unix_socket(&self) -> io::Result<OwnedFd> {
        self.rt.unix_socket()
    }
}

impl<R: Net> Dial for Host<'_, '_, R> {
    // It isn't a failure if no more clients can wait: the socket is tried again.
    fn dial(&self, path: &str) -> io::Result<UnixStream> {
        match Dialed::connect(self.rt, path) {
            Ok(stream) => Ok(UnixStream::from(stream)),
            Err(error) if error.kind() == ErrorKind::WouldBlock => Err(error),
            Err(error) => self.noted(path, Err(error)),
        }
    }

    fn note_count(&self, count: u64) {
        self.notes.note_count(count);
    }
}

impl<R: Clock> Clock for Host<'_, '_, R> {
    fn monotonic(&self) -> io::Result<Duration> {
        self.rt.monotonic()
    }

    fn since_1970(&self) -> io::Result<Duration> {
        self.rt.since_1970()
    }

    fn sleep(&self, duration: Duration) {
        self.rt.sleep(duration)
    }
}

// Whether a path may be given to another file: it names nothing, a link, or a regular file that nobody has locked. The
// lock is held no longer than this look takes.
fn free_to_replace<R: Files>(rt: &R, path: &str) -> io::Result<()>
where
    R::File: SystemFile,
{
    match rt.symlink_metadata(path) {
        Ok(found) if found.is_symlink() => return Ok(()),
        Ok(found) if found.is_file() => {}
        Ok(_) => return Err(io::Error::from(ErrorKind::AlreadyExists)),
        Err(error) if error.kind() == ErrorKind::NotFound => return Ok(()),
        Err(error) => return Err(error),
    }
    let file = OpenOptions::new().read(true).open(rt, path)?;
    match file.try_lock() {
        Err(TryLockError::WouldBlock) => Err(io::Error::from(ErrorKind::AlreadyExists)),
        // A file system without locks.
        Ok(()) | Err(TryLockError::Error(_)) => Ok(()),
    }
}

// The length of a file that has one.
fn length_of<F: OpenFile>(file: &F) -> Option<u64> {
    match file.metadata() {
        Ok(found) if found.is_file() && found.len() > 0 => Some(found.len()),
        _ => None,
    }
}

// The path of an address, for a note.
fn path_of(address: &unix::SocketAddr) -> &str {
    match address.as_pathname() {
        Some(path) => path.as_str(),
        None => "",
    }
}
