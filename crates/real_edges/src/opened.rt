// A real folder that is open: it is locked, and it stays the same folder when it is moved.
use std::alloc::Global;
use std::fs::{self, File, Files, TryLockError};
use std::io::{self, Eprint, ErrorKind};
use std::os::fd::AsRawFd;
use std::os::unix::fs::MetadataExt;

/// An open folder. While it is open, nobody else opens it by this type.
#[derive(Drop)]
pub struct OpenFolder {
    file: File,
    path: String,
}

impl OpenFolder {
    /// Opens the folder at this path, and locks it.
    ///
    /// An error if there is no folder that can be read, or if somebody has locked it; the latter is printed on
    /// standard error. If the system has no locks for it, that is printed, and it is opened all the same.
    pub fn open<R: Files<File = File> + Eprint + AllocGlobal>(
        rt: &R,
        path: &str,
    ) -> io::Result<OpenFolder> {
        // A pipe in its place isn't opened, since that would wait for a writer.
        if !fs::metadata(rt, path)?.is_dir() {
            return Err(ErrorKind::NotADirectory.into());
        }
        let file = fs::open(rt, path)?;
        lock(rt, &file)?;
        let path = path_of(rt, &file, path)?;
        Ok(OpenFolder { file, path })
    }

    /// A path of the folder, as long as it is open.
    pub fn path(&self) -> &str {
        self.path.as_str()
    }

    /// Puts on the disk what its names stand for. An error if the folder was removed.
    pub fn sync(&self) -> io::Result<()> {
        self.is_there()?;
        self.file.sync_all()
    }

    /// An error if the folder was removed, after which it has no names.
    pub fn is_there(&self) -> io::Result<()> {
        if self.file.metadata()?.nlink() == 0 {
            return Err(ErrorKind::NotFound.into());
        }
        Ok(())
    }
}

// Locks an open folder, as long as it is open. The system gives the lock up when the process ends, however it does.
fn lock<R: Eprint>(rt: &R, file: &File) -> io::Result<()> {
    for _ in 0..u64::MAX {
        match file.try_lock() {
            Ok(()) => break,
            Err(TryLockError::WouldBlock) => {
                let _ = eprintln!(rt; "keyringd: another keyringd has the folder open");
                return Err(ErrorKind::WouldBlock.into());
            }
            Err(TryLockError::Error(error)) => {
                if error.kind() != ErrorKind::Interrupted {
                    let _ = eprintln!(rt;
                        "keyringd: the folder can't be locked: another keyringd isn't kept out"
                    );
                    break;
                }
            }
        }
    }
    Ok(())
}

/// A path that leads to this open folder wherever it is moved, if the system has one; otherwise the one that was given.
pub fn path_of<R: Files + AllocGlobal>(rt: &R, file: &File, given: &str) -> io::Result<String> {
    let number = file.as_raw_fd();
    let path = format!(in rt.alloc(); "/proc/self/fd/{number}")?;
    let opened = file.metadata()?;
    if let Ok(found) = fs::metadata(rt, path.as_str()) {
        if found.dev() == opened.dev() && found.ino() == opened.ino() {
            return Ok(path);
        }
    }
    Ok(String::from_str(rt.alloc(), given)?)
}
