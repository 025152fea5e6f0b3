//! The socket for the clients of a node's desk.

ghost use Rattle.std.specs.Prelude.{◌≡◌, ◌++◌, IfOk, codes, string_bytes};

use crate::accepting::Door;
use std::alloc::{AllocError, Global};
use std::fs::{DirBuilder, Permissions};
use std::io::ErrorKind;
use std::net::{Net, Shutdown, TcpStream};
use std::os::fd::OwnedFd;
use std::os::unix::fs::{DirBuilderExt, FileTypeExt, PermissionsExt};
use std::os::unix::net::{UnixListener, UnixStream};
use std::rt::Files;
use std::{fs, io};

/// The greatest size of a socket's name in bytes. The system accepts 107, and the name in the
/// folder that the socket is made in is longer than its own.
pub const MOST_SOCKET_NAME: usize = 101;

/// The mode of a socket that only its owner may use.
const SOCKET_MODE: u32 = 0o600;

const FOLDER_MODE: u32 = 0o700;

/// The ending that the name of that folder has after the socket's, and the socket's name there.
const NEW: &str = ".new";

const IN_NEW: &str = "s";

/// A Unix socket that listens for clients of a node's desk.
#[derive(Drop)]
pub struct DeskSocket {
    listener: UnixListener,
    // This socket under a type that can be shut down: a thread that waits for a client then gets an
    // error at once.
    same: TcpStream,
}

impl DeskSocket {
    /// Listens on the socket `path`, which only the owner may open. A socket there that nobody
    /// listens on any more, as after a kill, is removed. Anything else there is an error.
    pub fn bind<R: Files + Net>(rt: &R, alloc: Global, path: &str) -> io::Result<DeskSocket> {
        make_way(rt, path)?;
        let Ok((folder, made)) = new_names(alloc, path) else {
            return Err(io::Error::from(ErrorKind::OutOfMemory));
        };
        let listener = bind_within(rt, folder.as_str(), made.as_str(), path)?;
        let same = TcpStream::from(OwnedFd::from(listener.try_clone()?));
        Ok(DeskSocket { listener, same })
    }

    /// Ends the wait for clients for good.
    pub(crate) fn shut(&self) {
        let _ = self.same.shutdown(Shutdown::Both);
    }
}

impl Door for DeskSocket {
    fn next(&self) -> io::Result<TcpStream> {
        let (stream, _) = self.listener.accept()?;
        Ok(TcpStream::from(OwnedFd::from(stream)))
    }
}

// Returns the folder that a socket is made in, and its name there.
fn new_names(alloc: Global, path: &str) -> Result<(String, String), AllocError>
    ensures folder { IfOk result (λ names. string_bytes names.0 ≡ path.now ++ codes ".new") }
    ensures socket { IfOk result (λ names.
        string_bytes names.1 ≡ string_bytes names.0 ++ codes "/s") }
{
    let folder = format!(in alloc; "{path}{NEW}")?;
    let made = format!(in alloc; "{folder}/{IN_NEW}")?;
    Ok((folder, made))
}

// Listens on a socket that gets its name only after nobody else may open it. Until then it is in a
// new folder that nobody else may enter. A kill may have left such a folder.
fn bind_within<R: Files + Net>(
    rt: &R,
    folder: &str,
    made: &str,
    path: &str,
) -> io::Result<UnixListener> {
    remove_new(rt, folder, made);
    DirBuilder::new().mode(FOLDER_MODE).create(rt, folder)?;
    let bound = bind_named(rt, made, path);
    remove_new(rt, folder, made);
    bound
}

fn bind_named<R: Files + Net>(rt: &R, made: &str, path: &str) -> io::Result<UnixListener> {
    let listener = UnixListener::bind(rt, made)?;
    fs::set_permissions(rt, made, Permissions::from_mode(SOCKET_MODE))?;
    fs::rename(rt, made, path)?;
    Ok(listener)
}

fn remove_new<R: Files>(rt: &R, folder: &str, made: &str) {
    let _ = fs::remove_file(rt, made);
    let _ = fs::remove_dir(rt, folder);
}

// Removes a socket that nobody listens on.
fn make_way<R: Files + Net>(rt: &R, path: &str) -> io::Result<()> {
    let found = match fs::symlink_metadata(rt, path) {
        Ok(found) => found,
        Err(error) if error.kind() == ErrorKind::NotFound => return Ok(()),
        Err(error) => return Err(error),
    };
    if !found.file_type().is_socket() {
        return Err(io::Error::from(ErrorKind::AlreadyExists));
    }
    match UnixStream::connect(rt, path) {
        Ok(_) => Err(io::Error::from(ErrorKind::AddrInUse)),
        Err(error) if error.kind() == ErrorKind::ConnectionRefused => fs::remove_file(rt, path),
        Err(error) => Err(error),
    }
}
