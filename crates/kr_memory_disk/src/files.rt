// Files in memory, by their names.
ghost use Rattle.std.specs.Prelude.{◌≡◌, ◌<◌, ◌≤◌, ◌++◌, ◌∷◌, ℕ, nat_eq, not, List, [], IfOk, OnOk, OnErr, IfSome, IsNone, None, Some, vec_len, vec_capacity};
ghost use Rattle.std.specs.List.{filter};
ghost use Rattle.std.specs.Cmp.Lexicographic.{pointwise};
ghost use Rattle.kr_memory_disk.specs.Files.{image_in, names_of, HasDistinctNames};

use kr_base::{Bytes, OutOfMemory, Text};
use std::alloc::Global;
use std::marker::Model;

/// A file in memory.
#[derive(Drop)]
pub struct MemoryFile {
    /// Its name.
    pub name: Text,
    /// Its bytes.
    pub bytes: Bytes,
}

/// Files in memory, each under a name of its own.
#[derive(Drop)]
pub struct Files {
    alloc: Global,
    files: Vec<MemoryFile>,
}

impl Model for Files {
    ghost use Rattle.std.specs.Prelude.{List};
    ghost use Rattle.kr_memory_disk.specs.declared.files.MemoryFile.{MemoryFile};
    ghost use Rattle.kr_memory_disk.specs.Files.{HasDistinctNames};

    ghost Value = { List MemoryFile };

    ghost view = { λ f. f.files.items };

    ghost invariant = { λ f. HasDistinctNames f.files.items };
}

impl Files {
    /// No files.
    pub fn new(alloc: Global) -> Files
        ensures { result ≡ [] }
    {
        Files {
            alloc,
            files: Vec::new(alloc),
        }
    }

    /// Makes the name stand for this image: the bytes of a file, or no file.
    ///
    /// Refused if no memory was left.
    pub fn set(&mut self, name: Text, image: Option<Bytes>) -> Result<(), OutOfMemory>
        ensures set { OnOk result (image_in self.new name ≡ image) }
        ensures others { (other : List ℕ) → ¬ (other ≡ name)
            → OnOk result (image_in self.new other ≡ image_in self.old other) }
        ensures unchanged { OnErr result (self.new ≡ self.old) }
    {
        self.files.reserve(1)?;
        take_out(&mut self.files, &name);
        match image {
            Some(bytes) => add(&mut self.files, name, bytes),
            None => drop(name),
        }
        Ok(())
    }

    /// What the name stands for: the bytes of a file, or no file.
    pub fn image(&self, name: &str) -> Option<&[u8]>
        ensures file { IfSome result (λ bytes. image_in self.now name.now ≡ Some bytes.now) }
        ensures none { IsNone result → image_in self.now name.now ≡ None }
    {
        image_of(&self.files, name)
    }

    /// A copy of what the name stands for.
    pub fn copy_of(&self, name: &str) -> Result<Option<Bytes>, OutOfMemory>
        ensures { IfOk result (λ image. image ≡ image_in self.now name.now) }
    {
        match self.image(name) {
            None => Ok(None),
            Some(bytes) => Ok(Some(Bytes::from_slice(self.alloc, bytes)?)),
        }
    }

    /// The names, in the order in which they were set.
    pub fn names(&self) -> Result<Vec<Text>, OutOfMemory>
        ensures names { IfOk result (λ names. names.items ≡ names_of self.now) }
        ensures distinct { HasDistinctNames self.now }
    {
        names_in(self.alloc, &self.files)
    }

    /// A copy of the files.
    pub fn copy(&self) -> Result<Files, OutOfMemory>
        ensures { IfOk result (λ copied. copied ≡ self.now) }
    {
        Ok(Files {
            alloc: self.alloc,
            files: copies(self.alloc, &self.files)?,
        })
    }
}

// What the name stands for among these files.
fn image_of<'a>(files: &'a [MemoryFile], name: &str) -> Option<&'a [u8]>
    ensures file { IfSome result (λ bytes. image_in files.now name.now ≡ Some bytes.now) }
    ensures none { IsNone result → image_in files.now name.now ≡ None }
{
    let mut rest = files;
    while let [file, after @ ..] = rest {
        if file.name.as_str() == name {
            return Some(file.bytes.as_slice());
        }
        rest = after;
    }
    None
}

// Copies of the names of these files.
fn names_in(alloc: Global, files: &[MemoryFile]) -> Result<Vec<Text>, OutOfMemory>
    ensures { IfOk result (λ names. names.items ≡ names_of files.now) }
{
    let mut names = Vec::new(alloc);
    for file in files {
        names.push(file.name.copy()?)?;
    }
    Ok(names)
}

// Copies of these files.
fn copies(alloc: Global, files: &[MemoryFile]) -> Result<Vec<MemoryFile>, OutOfMemory>
    ensures { IfOk result (λ copied. copied.items ≡ files.now) }
{
    let mut copied = Vec::new(alloc);
    for file in files {
        copied.push(MemoryFile {
            name: file.name.copy()?,
            bytes: file.bytes.copy()?,
        })?;
    }
    Ok(copied)
}

// Appends a file; there is room for it.
fn add(files: &mut Vec<MemoryFile>, name: Text, bytes: Bytes)
    requires { vec_len files.old < vec_capacity files.old }
    ensures { files.new.items
        ≡ files.old.items ++ (record { name = name; bytes = bytes }) ∷ [] }
{
    files.push(MemoryFile { name, bytes }).unwrap();
}

// Removes the file of this name, if there is one.
fn take_out(files: &mut Vec<MemoryFile>, name: &Text)
    ensures others { files.new.items
        ≡ filter (λ file. not (pointwise nat_eq file.name name.now)) files.old.items }
    ensures no_more { vec_len files.new ≤ vec_len files.old }
    ensures room { vec_capacity files.new ≡ vec_capacity files.old }
{
    files.retain(|file| file.name != *name);
}
