// One name of a real folder: its file, and the temporary file beside it.
ghost use Rattle.std.specs.Prelude.{◌≡◌, ◌≤◌, Ok, None, IfOk, length, IsFalse, false};
ghost use Rattle.std.proofs.Common.{rules};
ghost use Rattle.kr_outside.specs.Faults.{HasCause, EndsAs};
ghost use Rattle.kr_outside.specs.RenameDisk.{Unknown, FitsIn};

use crate::faults::counted;
use crate::opened::OpenFolder;
use crate::standard::{ReaderSource, WriterSink};
use kr_outside::{DeviceCall, Failed, Seen, Slot, Source, write_all};
use std::alloc::Global;
use std::fs::{self, Files, OpenFile, OpenOptions};
use std::io::{self, ErrorKind};
use std::os::unix::fs::OpenOptionsExt;
use std::sync::Arc;

/// A name of a real folder, with the temporary file beside it. Its calls take no memory.
#[derive(Drop)]
pub struct RealSlot<R: Files + Copy> {
    rt: R,
    folder: Arc<OpenFolder, Global>,
    path: String,
    temporary: String,
    aside: String,
    written: Option<R::File>,
    faults: u64,
    failed: Option<DeviceCall>,
    answered: Option<Seen>,
}

impl<R: Files + Copy> RealSlot<R> {
    /// The slot of the file at this path, in this folder, with this temporary file; no fault so far. A folder in the
    /// place of the temporary file is moved to the path `aside`, the last letter of which is a digit.
    pub fn new(
        rt: R,
        folder: Arc<OpenFolder, Global>,
        path: String,
        temporary: String,
        aside: String,
    ) -> Self
        ensures { result.faults ≡ 0 }
    {
        RealSlot {
            rt,
            folder,
            path,
            temporary,
            aside,
            written: None,
            faults: 0,
            failed: None,
            answered: None,
        }
    }

    /// How often the system returned an error.
    pub fn faults(&self) -> u64
        ensures { result ≡ self.now.faults }
    {
        self.faults
    }

    // What the system returned for this call; an error is counted, and nothing else of it is passed on.
    fn ended<T>(&mut self, call: DeviceCall, answer: io::Result<T>) -> Result<T, Failed>
        ensures passed { IfOk result (λ value. answer ≡ Ok value) }
        ensures cause { HasCause self.old.faults self.new.faults result }
        ensures call { EndsAs call self.new.failed result }
    {
        let ended = counted(&mut self.faults, answer);
        self.failed = match &ended {
            Ok(_) => None,
            Err(_) => Some(call),
        };
        ended
    }
}

impl<R: Files + Copy> Slot for RealSlot<R> {
    ghost seen = { λ _. None };

    ghost temporary = { λ _. Unknown };

    ghost may_leave = { λ _ _. Unit {0} };

    ghost moment = { λ _. 0 };

    ghost left_since = { λ _ _ _. Unit {0} };

    ghost faults = { λ s. s.faults };

    ghost failed = { λ s. s.failed };

    ghost answered = { λ s. s.answered };

    ghost is_honest = { λ _. false };

    ghost is_steady = { λ _. false };

    ghost may_leave_seen = { λ _ _. tt };

    ghost counts_now = { λ _ _ _ _ _ _. tt };

    ghost only_now = { λ _ _ _ _. tt };

    ghost steady_below = { Prim.search rules };

    fn size(&mut self) -> Result<Option<u64>, Failed> {
        let size = size_of(&self.rt, &self.path);
        self.ended(DeviceCall::Size, size)
    }

    fn read(&mut self, buffer: &mut [u8]) -> Result<Seen, Failed> {
        let seen = read_file(&self.rt, &self.path, buffer);
        let seen = self.ended(DeviceCall::Read, seen)?;
        self.answered = Some(seen);
        Ok(seen)
    }

    fn put_temp(&mut self, bytes: &[u8]) -> Result<(), Failed> {
        // A file that an earlier call wrote isn't this one: if this call fails, there is
        // nothing to sync.
        self.written = None;
        let written = write_anew(&self.rt, &self.temporary, &mut self.aside, bytes);
        self.written = Some(self.ended(DeviceCall::PutTemp, written)?);
        Ok(())
    }

    fn sync_temp(&mut self) -> Result<(), Failed> {
        let synced = match self.written.take() {
            Some(file) => file.sync_all(),
            None => Err(ErrorKind::NotFound.into()),
        };
        self.ended(DeviceCall::SyncTemp, synced)
    }

    fn rename(&mut self) -> Result<(), Failed> {
        let renamed = fs::rename(&self.rt, &self.temporary, &self.path);
        self.ended(DeviceCall::Rename, renamed)
    }

    fn sync_folder(&mut self) -> Result<(), Failed> {
        let synced = self.folder.sync();
        self.ended(DeviceCall::SyncFolder, synced)
    }

    fn remove(&mut self) -> Result<(), Failed> {
        let removed = fs::remove_file(&self.rt, &self.path);
        self.ended(DeviceCall::Remove, removed)
    }
}

// The number of bytes of the file at this path, or None if there is none. Anything but a file, such
// as a folder or a pipe, counts as none: opening a pipe would wait for its writer.
fn size_of<R: Files>(rt: &R, path: &str) -> io::Result<Option<u64>> {
    match fs::metadata(rt, path) {
        Ok(found) => Ok(if found.is_file() {
            Some(found.len())
        } else {
            None
        }),
        Err(error) => {
            if error.kind() == ErrorKind::NotFound {
                Ok(None)
            } else {
                Err(error)
            }
        }
    }
}

// The file at this path, opened for reading, or None if there is none. It is opened for writing as well, by which no
// pipe waits for its other end, and then looked at. One that may not be written is looked at first.
fn opened_file<R: Files>(rt: &R, path: &str) -> io::Result<Option<R::File>> {
    match OpenOptions::new().read(true).write(true).open(rt, path) {
        Ok(file) => Ok(if file.metadata()?.is_file() {
            Some(file)
        } else {
            None
        }),
        Err(_) => Ok(match size_of(rt, path)? {
            Some(_) => Some(fs::open(rt, path)?),
            None => None,
        }),
    }
}

// Reads the file at this path to the start of the buffer.
fn read_file<R: Files>(rt: &R, path: &str, buffer: &mut [u8]) -> io::Result<Seen>
    ensures { IfOk result (FitsIn (length buffer.new)) }
{
    let Some(file) = opened_file(rt, path)? else {
        return Ok(Seen::Missing);
    };
    let mut file = ReaderSource::new(file);
    let mut behind = [0; 1];
    let Ok(count) = fill(&mut file, buffer) else {
        return Err(ErrorKind::Other.into());
    };
    if count < buffer.len() {
        return Ok(Seen::Whole(count));
    }
    match fill(&mut file, &mut behind) {
        Ok(0) => Ok(Seen::Whole(count)),
        Ok(_) => Ok(Seen::Longer),
        Err(_) => Err(ErrorKind::Other.into()),
    }
}

// Reads until the buffer is full or the input ends, and returns how many bytes were read.
fn fill<I: Source>(input: &mut I, buffer: &mut [u8]) -> Result<usize, Failed>
    requires is_open { IsFalse (I.is_closed input.old) }
    ensures within { IfOk result (λ count. count ≤ length buffer.new) }
    ensures is_open { IsFalse (I.is_closed input.new) }
{
    let mut count = 0;
    while count < buffer.len() {
        let more = input.read(&mut buffer[count..])?;
        if more == 0 {
            break;
        }
        count += more;
    }
    Ok(count)
}

// Makes the file at this path anew, for its owner alone, and writes the bytes. One that an earlier
// run left over is removed first, and a folder in its place is moved aside.
fn write_anew<R: Files>(
    rt: &R,
    path: &str,
    aside: &mut String,
    bytes: &[u8],
) -> io::Result<R::File> {
    let file = match new_file(rt, path) {
        Err(error) => {
            if error.kind() != ErrorKind::AlreadyExists {
                return Err(error);
            }
            if fs::remove_file(rt, path).is_err() {
                move_aside(rt, path, aside)?;
            }
            new_file(rt, path)?
        }
        Ok(file) => file,
    };
    let mut sink = WriterSink::new(file);
    match write_all(&mut sink, bytes) {
        Ok(()) => Ok(sink.into_writer()),
        Err(_) => Err(ErrorKind::Other.into()),
    }
}

// Moves the folder at this path to the other one, with the first digit at its end at which nothing else is.
fn move_aside<R: Files>(rt: &R, path: &str, aside: &mut String) -> io::Result<()> {
    for digit in '0'..='9' {
        aside.pop();
        aside.push(digit)?;
        if fs::rename(rt, path, aside.as_str()).is_ok() {
            return Ok(());
        }
    }
    Err(ErrorKind::AlreadyExists.into())
}

fn new_file<R: Files>(rt: &R, path: &str) -> io::Result<R::File> {
    OpenOptions::new()
        .write(true)
        .create_new(true)
        .mode(0o600)
        .open(rt, path)
}
