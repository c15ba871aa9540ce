ghost use Rattle.std.specs.Prelude.{◌≡◌, [], None, false, reverse};
ghost use Rattle.std.proofs.Common.{rules};

use crate::faults::{count, counted};
use crate::opened::OpenFolder;
use crate::slot::RealSlot;
use kr_base::{Bytes, OutOfMemory, Text};
use kr_outside::{Failed, Folder, OutsideRefused};
use std::alloc::Global;
use std::fs::{self, DirEntry, Files};
use std::io::{self, ErrorKind};
use std::sync::Arc;

/// A real folder. It is opened once, so that it and its slots stay in one folder when that is moved.
#[derive(Drop)]
pub struct RealFolder<R: Files + AllocGlobal + Copy> {
    rt: R,
    folder: Arc<OpenFolder, Global>,
    made: Vec<Bytes>,
    faults: u64,
}

impl<R: Files + AllocGlobal + Copy> RealFolder<R> {
    /// The open folder, with no fault so far.
    pub fn new(rt: R, folder: Arc<OpenFolder, Global>) -> Self
        ensures faults { result.faults ≡ 0 }
        ensures made { reverse result.made.items ≡ [] }
    {
        RealFolder {
            rt,
            folder,
            made: Vec::new(rt.alloc()),
            faults: 0,
        }
    }

    /// How often the system returned an error.
    pub fn faults(&self) -> u64
        ensures { result ≡ self.now.faults }
    {
        self.faults
    }
}

impl<R: Files + AllocGlobal + Copy> Folder for RealFolder<R> {
    type Cell = RealSlot<R>;

    ghost images = { λ _ _. None };

    ghost may_leave = { λ _ _ _. Unit {0} };

    ghost made = { λ f. reverse f.made.items };

    ghost faults = { λ f. f.faults };

    ghost is_honest = { λ _. false };

    ghost is_steady = { λ _. false };

    ghost steady_below = { Prim.search rules };

    fn sync(&mut self) -> Result<(), Failed> {
        let synced = self.folder.sync();
        counted(&mut self.faults, synced)
    }

    fn names(&mut self) -> Result<Vec<Text>, OutsideRefused> {
        match names_of(&self.rt, &self.folder) {
            Ok(names) => Ok(names),
            Err(error) => {
                if error.kind() == ErrorKind::OutOfMemory {
                    return Err(OutsideRefused::OutOfMemory);
                }
                count(&mut self.faults);
                Err(OutsideRefused::Failed)
            }
        }
    }

    fn slot(&mut self, name: &str) -> Result<RealSlot<R>, OutOfMemory> {
        let alloc = self.rt.alloc();
        let folder = Arc::try_clone(&self.folder)?;
        let path = path_in(alloc, folder.path(), name, "")?;
        let temporary = path_in(alloc, folder.path(), name, TEMPORARY)?;
        let aside = path_in(alloc, folder.path(), name, ASIDE)?;
        let made = Bytes::from_slice(alloc, name.as_bytes())?;
        match self.made.push(made) {
            Ok(()) => Ok(RealSlot::new(self.rt, folder, path, temporary, aside)),
            Err(refused) => Err(refused.into()),
        }
    }
}

// The endings of the temporary file of a name, and of a folder that took its place and was moved aside. They have
// the same length, so that a name that is short enough for the one is for the other.
const TEMPORARY: &str = ".tmp";

const ASIDE: &str = ".tm0";

/// Removes the temporary files that an ended process left in the folder: those of keyring files and of the aliases.
/// One that can't be removed stays; it is in nobody's way.
pub fn remove_left_overs<R: Files + AllocGlobal + Copy>(rt: &R, folder: &OpenFolder) {
    let Ok(names) = listed(rt, folder.path()) else {
        return;
    };
    for name in &names {
        if is_temporary(name.as_str()) {
            if let Ok(path) = path_in(rt.alloc(), folder.path(), name.as_str(), "") {
                let _ = fs::remove_file(rt, path.as_str());
            }
        }
    }
}

fn is_temporary(name: &str) -> bool {
    match name.strip_suffix(TEMPORARY) {
        Some(file) => file == "aliases" || file.ends_with(".keyring"),
        None => false,
    }
}

// The path of a name in a folder.
fn path_in(alloc: Global, folder: &str, name: &str, ending: &str) -> Result<String, OutOfMemory> {
    let mut path = String::from_str(alloc, folder)?;
    path.push('/')?;
    path.push_str(name)?;
    path.push_str(ending)?;
    Ok(path)
}

// The names in an open folder. An error if it was removed.
fn names_of<R: Files + AllocGlobal + Copy>(rt: &R, folder: &OpenFolder) -> io::Result<Vec<Text>> {
    folder.is_there()?;
    listed(rt, folder.path())
}

// The names in the folder at this path, whatever they stand for: a folder with the name of a
// keyring file takes up that name too.
fn listed<R: Files + AllocGlobal + Copy>(rt: &R, path: &str) -> io::Result<Vec<Text>> {
    let mut names = Vec::new(rt.alloc());
    for entry in fs::read_dir(rt, path)? {
        names.push(name_of(rt, &entry?)?)?;
    }
    Ok(names)
}

fn name_of<R: Files + AllocGlobal + Copy>(rt: &R, entry: &DirEntry<R, Global>) -> io::Result<Text> {
    match Text::from_str(rt.alloc(), entry.file_name())? {
        Some(name) => Ok(name),
        None => Err(ErrorKind::InvalidFilename.into()),
    }
}
