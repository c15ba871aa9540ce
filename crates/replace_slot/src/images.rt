ghost use Rattle.std.specs.Prelude.{◌≡◌, ◌<◌, ◌↔◌, IsTrue, length};
ghost use Rattle.std.specs.Option.{option_map};
ghost use Rattle.kr_outside.specs.RenameDisk.{FitsIn};
ghost use Rattle.replace_slot.specs.Cell.{Known, Doubt, IsKnown, old_image, new_image, length_of, longest_of};
ghost use Rattle.replace_slot.specs.Found.{Gave, found_file, IsFound, Shows};

use crate::image::Image;
use kr_outside::Seen;
use std::marker::Model;

/// Which image a file in doubt turned out to have.
#[derive(Clone, Copy, PartialEq, Eq)]
pub enum Found {
    /// The older of the two.
    Old,
    /// The newer of the two.
    New,
    /// Neither. This never happens with an honest slot.
    Other,
}

/// What is known of a file: its image, or an older and a newer image of which it has one.
#[derive(Drop)]
pub struct Images {
    image: Option<Image>,
    newer: Option<Option<Image>>,
}

impl Model for Images {
    ghost use Rattle.replace_slot.specs.Cell.{File, file_of};

    ghost Value = { File };

    ghost view = { λ i. file_of i.image i.newer };
}

impl Images {
    /// The image is known.
    pub fn known(image: Option<Image>) -> Images
        ensures { result ≡ Known image }
    {
        Images { image, newer: None }
    }

    /// Whether the image is known.
    pub fn is_known(&self) -> bool
        ensures { IsTrue result ↔ IsKnown self.now }
    {
        self.newer.is_none()
    }

    /// The number of bytes of the longest image; 0 for no file.
    pub fn longest(&self) -> usize
        ensures { result ≡ longest_of self.now }
    {
        match &self.newer {
            None => length(&self.image),
            Some(newer) => length(&self.image).max(length(newer)),
        }
    }

    /// The known image, or the older of the two; None for no file.
    pub fn image(&self) -> Option<&Image>
        ensures { option_map (λ image. image.now) result ≡ old_image self.now }
    {
        self.image.as_ref()
    }

    /// The known image, or the newer of the two; None for no file.
    pub fn newer(&self) -> Option<&Image>
        ensures { option_map (λ image. image.now) result ≡ new_image self.now }
    {
        match &self.newer {
            None => self.image.as_ref(),
            Some(newer) => newer.as_ref(),
        }
    }

    /// The file is now known to have this image.
    pub fn set(&mut self, image: Option<Image>)
        ensures { self.new ≡ Known image }
    {
        *self = Images::known(image);
    }

    /// The file now has the known image or this newer one.
    pub fn doubt(&mut self, newer: Option<Image>)
        requires { IsKnown self.old }
        ensures { self.new ≡ Doubt (old_image self.old) newer }
    {
        self.newer = Some(newer);
    }

    /// Ends a doubt by what a read returned and left in the buffer.
    pub fn find(&mut self, seen: Seen, buffer: &[u8]) -> Found
        requires doubt { ¬ (IsKnown self.old) }
        requires fits { FitsIn (length buffer.now) seen }
        ensures found { self.new ≡ found_file result self.old }
        ensures gave { IsFound seen buffer.now result self.old }
        ensures shown { Shows result self.old buffer.now }
    {
        let newer = self.newer.take().unwrap();
        if gave(seen, buffer, &self.image) {
            return Found::Old;
        }
        if gave(seen, buffer, &newer) {
            self.image = newer;
            return Found::New;
        }
        Found::Other
    }
}

// Whether the read that returned `seen` left this image in the buffer.
fn gave(seen: Seen, buffer: &[u8], image: &Option<Image>) -> bool
    requires { FitsIn (length buffer.now) seen }
    ensures { IsTrue result ↔ Gave seen buffer.now image.now }
{
    match (seen, image) {
        (Seen::Missing, None) => true,
        (Seen::Whole(count), Some(image)) => &buffer[..count] == image.bytes(),
        _ => false,
    }
}

// The number of bytes of an image; 0 for no file.
fn length(image: &Option<Image>) -> usize
    ensures { result ≡ length_of image.now }
{
    match image {
        None => 0,
        Some(image) => image.bytes().len(),
    }
}
