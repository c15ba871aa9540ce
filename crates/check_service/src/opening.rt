// Images of files, and services over folders of them.
ghost use Rattle.std.specs.Prelude.{◌≡◌, [], IfSome};

use crate::many::many_items;
use crate::play::{Service, put};
use check_rows::{Line, cell};
use check_words::{bytes_of, number, numbers, text};
use kr_base::{Bytes, Text};
use kr_memory_disk::{MemoryFolder, SlotPlan};
use service_history::service_machine::OpenRefused;
use std::alloc::Global;

/// The image of a file, and its name.
#[derive(Drop)]
pub struct Image {
    name: Text,
    bytes: Vec<u8>,
}

// The bytes of an image: from hex, of many items that are alike, or from lines that end with `~`.
fn image_of(alloc: Global, cells: &str) -> Option<Vec<u8>> {
    match cell(cells, 1) {
        "hex" => hex::decode(alloc, cell(cells, 2)).ok(),
        "items" => many_items(alloc, cells),
        _ => {
            let mut bytes = bytes_of(alloc, cell(cells, 2))?;
            end_lines(bytes.as_mut_slice());
            Some(bytes)
        }
    }
}

fn end_lines(bytes: &mut [u8]) {
    for byte in bytes.iter_mut() {
        if *byte == b'~' {
            *byte = b'\n';
        }
    }
}

fn add_image(alloc: Global, images: &mut Vec<Image>, cells: &str) -> Option<usize> {
    let name = text(alloc, cell(cells, 0))?;
    let bytes = image_of(alloc, cells)?;
    let count = bytes.len();
    images.push(Image { name, bytes }).ok()?;
    Some(count)
}

/// Keeps the image of a file: its name, `hex` or `lines` and its content, or `items` and what `many_items` makes of the cells
/// after it. Writes its length in bytes.
pub fn keep_image(images: &mut Vec<Image>, cells: &str, line: &mut Line) {
    match add_image(line.alloc(), images, cells) {
        Some(count) => line.number(count as u64),
        None => line.add("no image"),
    }
}

fn kept_image<'a>(images: &'a [Image], name: &str) -> Option<&'a [u8]> {
    for image in images {
        if image.name.as_str() == name {
            return Some(image.bytes.as_slice());
        }
    }
    None
}

fn put_file(alloc: Global, folder: &mut MemoryFolder, name: &str, bytes: &[u8]) -> Option<()>
    ensures { folder.new.made ≡ folder.old.made }
{
    let name = text(alloc, name)?;
    let bytes = Bytes::from_slice(alloc, bytes).ok()?;
    folder.set(name, Some(bytes)).ok()
}

fn put_image(alloc: Global, folder: &mut MemoryFolder, images: &[Image], word: &str) -> Option<()>
    ensures { folder.new.made ≡ folder.old.made }
{
    let (name, kept) = word.split_once('=')?;
    let bytes = kept_image(images, kept)?;
    put_file(alloc, folder, name, bytes)
}

fn plan_of(alloc: Global, cells: &str) -> Option<SlotPlan> {
    Some(SlotPlan {
        name: text(alloc, cell(cells, 1))?,
        failing: numbers(alloc, cell(cells, 2))?,
        done: numbers(alloc, cell(cells, 3))?,
    })
}

fn put_plan(alloc: Global, folder: &mut MemoryFolder, cells: &str) -> Option<()>
    ensures { folder.new.made ≡ folder.old.made }
{
    folder.plan(plan_of(alloc, cells)?).ok()
}

fn folder_of(alloc: Global, images: &[Image], cells: &str) -> Option<MemoryFolder>
    ensures { IfSome result (λ folder. folder.made ≡ []) }
{
    let mut folder = MemoryFolder::new(alloc, numbers(alloc, cell(cells, 4))?);
    put_plan(alloc, &mut folder, cells)?;
    for word in cell(cells, 0).split_whitespace() {
        put_image(alloc, &mut folder, images, word)?;
    }
    Some(folder)
}

/// A folder with one file.
pub fn folder_with(alloc: Global, name: &str, bytes: Option<Bytes>) -> Option<MemoryFolder>
    ensures { IfSome result (λ folder. folder.made ≡ []) }
{
    let mut folder = MemoryFolder::new(alloc, Vec::new(alloc));
    folder.set(text(alloc, name)?, bytes).ok()?;
    Some(folder)
}

/// Opens a service over a folder in place of the one that is open, and writes whether that succeeded.
pub fn open_over(service: &mut Option<Service>, folder: MemoryFolder, line: &mut Line)
    requires { folder.made ≡ [] }
{
    match Service::open(line.alloc(), folder) {
        Ok(opened) => {
            put(service, Some(opened));
            line.add("open");
        }
        Err(OpenRefused::Folder) => {
            put(service, None);
            line.add("the folder failed");
        }
        Err(OpenRefused::OutOfMemory) => {
            put(service, None);
            line.lack();
        }
    }
}

/// Opens a service over a folder: its files, each as NAME=IMAGE; the name of the slot that fails, the numbers of its calls that
/// fail, and of those that the disk performs nevertheless; and the numbers of the folder's calls that fail.
pub fn open(service: &mut Option<Service>, images: &[Image], cells: &str, line: &mut Line) {
    match folder_of(line.alloc(), images, cells) {
        Some(folder) => open_over(service, folder, line),
        None => {
            put(service, None);
            line.add("no folder");
        }
    }
}
