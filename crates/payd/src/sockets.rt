//! The socket of a node's desk, according to the words that name it.

ghost use Rattle.std.specs.Prelude.{◌≡◌, ◌≤◌, IfOk, IfSome, string_bytes, string_len};
ghost use Rattle.std.specs.Option.{option_copied, option_map};
ghost use Rattle.payd.specs.Sockets.{socket_name};
ghost use Rattle.pay_net.specs.declared.desk_socket.TheConstants.{MOST_SOCKET_NAME};

use crate::stop::Stop;
use pay_log::Obstacle;
use pay_net::{DeskSocket, MOST_SOCKET_NAME};
use std::alloc::{AllocError, Global};
use std::fs;
use std::io::ErrorKind;
use std::net::Net;
use std::rt::Files;

/// The name of the socket in a node's folder.
const DESK: &str = "desk";

/// A socket that a node listens on, and the name that is removed at the end.
#[derive(Drop)]
pub(crate) struct NamedSocket {
    pub(crate) socket: DeskSocket,
    path: String,
}

impl NamedSocket {
    /// Removes the socket's name, so that nobody may connect to it any more.
    pub(crate) fn remove(&self, rt: &impl Files) {
        let _ = fs::remove_file(rt, self.path.as_str());
    }
}

/// Returns the name of a node's socket: the given `socket`, or the one in its `folder`.
pub(crate) fn socket_path<'a>(
    alloc: Global,
    folder: Option<&str>,
    socket: Option<&str>,
) -> Result<Option<String>, Stop<'a>>
    ensures short { IfOk result (λ path. IfSome path (λ name. string_len name ≤ MOST_SOCKET_NAME)) }
    ensures name { IfOk result (λ path. option_map string_bytes path
        ≡ socket_name (option_copied folder.entry) (option_copied socket.entry)) }
{
    let Some(path) = path_of_socket(alloc, folder, socket)? else {
        return Ok(None);
    };
    if path.len() > MOST_SOCKET_NAME {
        return Err(Stop::LongSocket(path));
    }
    Ok(Some(path))
}

fn path_of_socket(
    alloc: Global,
    folder: Option<&str>,
    socket: Option<&str>,
) -> Result<Option<String>, AllocError>
    ensures { IfOk result (λ path. option_map string_bytes path
        ≡ socket_name (option_copied folder.entry) (option_copied socket.entry)) }
{
    match (socket, folder) {
        (Some(path), _) => Ok(Some(String::from_str(alloc, path)?)),
        (None, Some(folder)) => Ok(Some(format!(in alloc; "{folder}/{DESK}")?)),
        (None, None) => Ok(None),
    }
}

/// Listens on a node's socket at `path`, if the node has a socket.
pub(crate) fn listen<'a, R: Files + Net>(
    alloc: Global,
    rt: &R,
    path: Option<String>,
) -> Result<Option<NamedSocket>, Stop<'a>> {
    let Some(path) = path else {
        return Ok(None);
    };
    match DeskSocket::bind(rt, alloc, path.as_str()) {
        Ok(socket) => Ok(Some(NamedSocket { socket, path })),
        Err(error) if error.kind() == ErrorKind::OutOfMemory => Err(Stop::from(AllocError)),
        Err(error) if error.kind() == ErrorKind::AlreadyExists => {
            let new_path = format!(in alloc; "{path}.new")?;
            Err(what_has(rt, path, new_path))
        }
        Err(error) => Err(Stop::Socket(path, error.kind())),
    }
}

// Returns what is in a socket's way: what has its name, or the name of the folder that it is made
// in.
fn what_has<'a>(rt: &impl Files, path: String, new_path: String) -> Stop<'a> {
    if let Ok(found) = fs::symlink_metadata(rt, path.as_str()) {
        return Stop::Taken(path, Obstacle::of(found.file_type()));
    }
    match fs::symlink_metadata(rt, new_path.as_str()) {
        Ok(found) => Stop::Taken(new_path, Obstacle::of(found.file_type())),
        Err(_) => Stop::Socket(path, ErrorKind::AlreadyExists),
    }
}
