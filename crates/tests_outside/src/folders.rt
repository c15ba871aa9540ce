// Real folders that others change, move or have open.

use crate::checks::{holds, same_bytes, same_number, same_text};
use kr_outside::{Folder, Host, Slot};
use real_edges::{RealFolder, RealHost, RealSlot};
use std::fs;
use std::os::unix::fs::symlink;
use std::os::unix::net::UnixListener;
use std::test::Fail;

type Opened = RealFolder<HostRuntime>;

// The folder at this path.
fn folder_at(rt: HostRuntime, path: &str) -> Result<Opened, Fail> {
    Ok(RealHost::new(rt).folder(path).ok().ok_or("a folder")?)
}

fn replace(slot: &mut RealSlot<HostRuntime>, bytes: &[u8]) -> Result<(), Fail> {
    slot.put_temp(bytes)?;
    slot.sync_temp()?;
    slot.rename()?;
    Ok(slot.sync_folder()?)
}

// Replaces the file of this name by these bytes.
fn put(folder: &mut Opened, name: &str, bytes: &[u8]) -> Result<(), Fail> {
    let mut slot = folder.slot(name)?;
    replace(&mut slot, bytes)
}

fn is_there(rt: &HostRuntime, path: &str) -> bool {
    fs::symlink_metadata(rt, path).is_ok()
}

// Whether the folder at this path is refused, and counted as a fault.
fn is_refused(rt: HostRuntime, path: &str) -> bool {
    let mut host = RealHost::new(rt);
    host.folder(path).is_err() && host.faults() == 1
}

#[test]
fn a_folder_is_open_to_one_at_a_time(rt: HostRuntime) -> Result<(), Fail> {
    fs::create_dir(&rt, "claimed")?;
    let mut folder = folder_at(rt, "claimed")?;
    let slot = folder.slot("a")?;
    holds(&rt, is_refused(rt, "claimed"), "the folder is open");
    drop(folder);
    holds(&rt, is_refused(rt, "claimed"), "a slot of it is left");
    drop(slot);
    holds(&rt, !is_refused(rt, "claimed"), "nothing of it is left");
    Ok(())
}

#[test]
fn a_folder_that_is_moved_stays_one(rt: HostRuntime) -> Result<(), Fail> {
    fs::create_dir(&rt, "home")?;
    let mut folder = folder_at(rt, "home")?;
    put(&mut folder, "a", b"before")?;
    fs::rename(&rt, "home", "new_home")?;
    fs::create_dir(&rt, "home")?;
    put(&mut folder, "b", b"after")?;
    let moved = fs::read(&rt, "new_home/b")?;
    same_bytes(&rt, moved.as_slice(), b"after", "where it was moved");
    holds(&rt, !is_there(&rt, "home/b"), "nothing is in the other");
    holds(&rt, !is_refused(rt, "home"), "the other isn't locked");
    holds(&rt, folder.names()?.len() == 2, "the names");
    Ok(())
}

// What is in the folder that was in the way, and where that folder is afterwards.
const WAYS: &str = "\
kept way/x.keyring.tm0/kept
more way/x.keyring.tm1/more
";

// Makes a folder in the way, and returns whether a file is replaced all the same, and the folder kept.
fn is_moved(rt: HostRuntime, folder: &mut Opened, name: &str, to: &str) -> Result<bool, Fail> {
    let way = "way/x.keyring.tmp";
    fs::create_dir(&rt, way)?;
    let inside = format!(in rt.alloc(); "{way}/{name}")?;
    fs::write(&rt, inside.as_str(), b"kept")?;
    let mut slot = folder.slot("x.keyring")?;
    replace(&mut slot, to.as_bytes())?;
    let is_kept = is_there(&rt, to);
    Ok(is_kept && fs::read(&rt, "way/x.keyring")?.as_slice() == to.as_bytes())
}

#[test]
fn a_folder_in_the_way_of_a_temporary_file_is_moved_aside(rt: HostRuntime) -> Result<(), Fail> {
    fs::create_dir(&rt, "way")?;
    let mut folder = folder_at(rt, "way")?;
    for row in WAYS.lines() {
        let (name, to) = row.split_once(' ').ok_or("a name and a path")?;
        let is_moved = is_moved(rt, &mut folder, name, to)?;
        holds(&rt, is_moved, row);
    }
    Ok(())
}

// Files in a folder; the first two are temporary files of ours.
const FILES: &[&str] = &[
    "left/x.keyring.tmp",
    "left/aliases.tmp",
    "left/other.tmp",
    "left/x.keyring",
    "left/aliases",
];

// Which of these files are left, each as a digit.
fn left(rt: &HostRuntime) -> Result<String, Fail> {
    let mut told = String::new(rt.alloc());
    for path in FILES {
        told.push(if is_there(rt, path) { '1' } else { '0' })?;
    }
    Ok(told)
}

#[test]
fn temporary_files_that_were_left_over_are_removed(rt: HostRuntime) -> Result<(), Fail> {
    fs::create_dir(&rt, "left")?;
    for path in FILES {
        fs::write(&rt, *path, b"some bytes")?;
    }
    let folder = folder_at(rt, "left")?;
    same_text(&rt, left(&rt)?.as_str(), "00111", "the files");
    same_number(&rt, folder.faults(), 0, "the folder's faults");
    Ok(())
}

#[test]
fn a_host_that_only_looks_removes_nothing(rt: HostRuntime) -> Result<(), Fail> {
    fs::create_dir(&rt, "looked")?;
    fs::write(&rt, "looked/x.keyring.tmp", b"some bytes")?;
    let mut host = RealHost::looking(rt);
    let folder = host.folder("looked").ok().ok_or("a folder")?;
    holds(
        &rt,
        is_there(&rt, "looked/x.keyring.tmp"),
        "the temporary file",
    );
    same_number(&rt, folder.faults(), 0, "the folder's faults");
    Ok(())
}

#[test]
fn a_link_is_read_and_then_replaced_by_a_file(rt: HostRuntime) -> Result<(), Fail> {
    fs::create_dir(&rt, "links")?;
    fs::write(&rt, "links/other", b"old")?;
    symlink(&rt, "other", "links/x.keyring")?;
    let mut folder = folder_at(rt, "links")?;
    let mut slot = folder.slot("x.keyring")?;
    holds(&rt, slot.size()? == Some(3), "the size that is read");
    replace(&mut slot, b"new")?;
    let found = fs::symlink_metadata(&rt, "links/x.keyring")?;
    holds(&rt, found.is_file(), "a file took its place");
    let other = fs::read(&rt, "links/other")?;
    same_bytes(&rt, other.as_slice(), b"old", "the file that it led to");
    Ok(())
}

// A socket can't be opened, and isn't read.
#[test]
fn what_is_no_file_is_no_keyring(rt: HostRuntime) -> Result<(), Fail> {
    fs::create_dir(&rt, "odd")?;
    let socket = UnixListener::bind(&rt, "odd/x.keyring")?;
    let mut folder = folder_at(rt, "odd")?;
    let mut slot = folder.slot("x.keyring")?;
    let mut buffer = [0; 4];
    holds(&rt, slot.size()?.is_none(), "no size");
    holds(
        &rt,
        matches!(slot.read(&mut buffer), Ok(kr_outside::Seen::Missing)),
        "no file",
    );
    drop(socket);
    Ok(())
}
