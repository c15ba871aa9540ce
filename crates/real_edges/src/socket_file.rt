// The file of a Unix socket: how it is made, and how it is taken away.
ghost use Rattle.std.specs.Prelude.{◌≡◌, IfOk, string_bytes};

use crate::opened::path_of;
use std::fs::{self, DirBuilder, File, Files, Permissions, TryLockError};
use std::io::{self, ErrorKind};
use std::net::Net;
use std::os::unix::fs::{DirBuilderExt, FileTypeExt, MetadataExt, PermissionsExt};
use std::os::unix::net::{SocketAddr, UnixListener, UnixStream};
use std::thread;
use std::time::{self, Duration};

/// The file of a socket, which is known by its device and its number there.
#[derive(Drop)]
pub struct SocketFile {
    path: String,
    device: u64,
    number: u64,
}

impl SocketFile {
    /// Removes the file. If another file is at its path by now, or none, that stays so.
    ///
    /// An error if the file can't be removed.
    pub fn remove<R: Files>(&self, rt: &R) -> io::Result<()> {
        match fs::symlink_metadata(rt, self.path.as_str()) {
            Ok(found) => {
                if found.dev() == self.device && found.ino() == self.number {
                    fs::remove_file(rt, self.path.as_str())
                } else {
                    Ok(())
                }
            }
            Err(_) => Ok(()),
        }
    }

    /// The path at which it was made.
    pub fn into_path(self) -> String
        ensures { result ≡ self.path }
    {
        self.path
    }
}

/// A socket that listens at the path, and its file, to which its owner alone may connect (mode 0600) from the moment
/// that it is there. A socket file that an ended process left there is replaced.
///
/// An error if the path is another file's, a socket's at which somebody listens, or too long for a socket.
pub fn bind<R: Files<File = File> + Net + time::Clock + AllocGlobal>(
    rt: &R,
    path: &str,
) -> io::Result<(UnixListener, SocketFile)>
    ensures { IfOk result (λ bound. string_bytes bound.1.path ≡ path.now) }
{
    let _ = SocketAddr::from_pathname(path)?;
    let _turn = turn_at(rt, parent_of(path))?;
    is_free(rt, path)?;
    let mut fresh = String::from_str(rt.alloc(), path)?;
    fresh.push_str(".new")?;
    make_fresh(rt, fresh.as_str())?;
    let bound = bind_in(rt, fresh.as_str(), path);
    // The folder is empty, unless the system failed.
    let _ = fs::remove_dir(rt, fresh.as_str());
    bound
}

// The path of the folder in which this path is.
fn parent_of(path: &str) -> &str {
    match path.rsplit_once('/') {
        Some(("", _)) => "/",
        Some((parent, _)) => parent,
        None => ".",
    }
}

// The folder of a socket, locked while a socket is made in it, so that of two that are made at one path each sees the
// other. None if the folder can't be locked. An error if somebody else has locked it for two seconds.
fn turn_at<R: Files<File = File> + time::Clock>(rt: &R, parent: &str) -> io::Result<Option<File>> {
    let Ok(folder) = fs::open(rt, parent) else {
        return Ok(None);
    };
    for _ in 0..200 {
        match folder.try_lock() {
            Ok(()) => return Ok(Some(folder)),
            Err(TryLockError::Error(_)) => return Ok(None),
            Err(TryLockError::WouldBlock) => thread::sleep(rt, Duration::from_millis(10)),
        }
    }
    Err(ErrorKind::WouldBlock.into())
}

// An error if there is a file at the path, unless it is a socket at which nobody listens.
fn is_free<R: Files + Net>(rt: &R, path: &str) -> io::Result<()> {
    match fs::symlink_metadata(rt, path) {
        Ok(found) => {
            if !found.file_type().is_socket() {
                return Err(ErrorKind::AlreadyExists.into());
            }
            match UnixStream::connect(rt, path) {
                Ok(_) => Err(ErrorKind::AddrInUse.into()),
                Err(error) => {
                    if error.kind() != ErrorKind::ConnectionRefused {
                        return Err(error);
                    }
                    Ok(())
                }
            }
        }
        Err(error) => {
            if error.kind() != ErrorKind::NotFound {
                return Err(error);
            }
            Ok(())
        }
    }
}

// Makes a folder that its owner alone may enter. One that an ended process left there is removed first.
fn make_fresh<R: Files + AllocGlobal>(rt: &R, path: &str) -> io::Result<()> {
    match new_folder(rt, path) {
        Ok(()) => Ok(()),
        Err(error) => {
            if error.kind() != ErrorKind::AlreadyExists {
                return Err(error);
            }
            let socket = socket_in(rt, path)?;
            let _ = fs::remove_file(rt, socket.as_str());
            fs::remove_dir(rt, path)?;
            new_folder(rt, path)
        }
    }
}

fn new_folder<R: Files>(rt: &R, path: &str) -> io::Result<()> {
    let mut builder = DirBuilder::new();
    builder.mode(0o700);
    builder.create(rt, path)
}

fn socket_in<R: AllocGlobal>(rt: &R, folder: &str) -> io::Result<String> {
    let mut socket = String::from_str(rt.alloc(), folder)?;
    socket.push_str("/s")?;
    Ok(socket)
}

// Makes the socket in the fresh folder, and moves it to the path once it listens and has its mode.
fn bind_in<R: Files<File = File> + Net + AllocGlobal>(
    rt: &R,
    fresh: &str,
    path: &str,
) -> io::Result<(UnixListener, SocketFile)>
    ensures { IfOk result (λ bound. string_bytes bound.1.path ≡ path.now) }
{
    let folder = fs::open(rt, fresh)?;
    let inside = path_of(rt, &folder, fresh)?;
    let socket = socket_in(rt, inside.as_str())?;
    let made = listen_at(rt, socket.as_str(), path);
    if made.is_err() {
        let _ = fs::remove_file(rt, socket.as_str());
    }
    made
}

fn listen_at<R: Files + Net + AllocGlobal>(
    rt: &R,
    socket: &str,
    path: &str,
) -> io::Result<(UnixListener, SocketFile)>
    ensures { IfOk result (λ bound. string_bytes bound.1.path ≡ path.now) }
{
    let name = String::from_str(rt.alloc(), path)?;
    let listener = UnixListener::bind(rt, socket)?;
    fs::set_permissions(rt, socket, Permissions::from_mode(0o600))?;
    let found = fs::symlink_metadata(rt, socket)?;
    fs::rename(rt, socket, path)?;
    Ok((
        listener,
        SocketFile {
            path: name,
            device: found.dev(),
            number: found.ino(),
        },
    ))
}
