ghost use Rattle.std.specs.Prelude.{◌≡◌, IfOk};

use kr_base::OutOfMemory;
use std::alloc::Global;
use std::marker::Model;
use std::sync::Arc;

/// The bytes of a file. Each of its owners reads the same bytes, which aren't copied and don't change.
#[derive(Drop)]
pub struct Image {
    bytes: Arc<Vec<u8>>,
}

impl Model for Image {
    ghost use Rattle.std.specs.Prelude.{List, ℕ};
    ghost use Rattle.std.specs.Arc.{arc_value};

    ghost Value = { List ℕ };

    ghost view = { λ i. (arc_value i.bytes).items };
}

impl Image {
    /// The image with these bytes.
    pub fn new(alloc: Global, bytes: Vec<u8>) -> Result<Image, OutOfMemory>
        ensures { IfOk result (λ image. image ≡ bytes.items) }
    {
        let bytes = Arc::new(alloc, bytes)?;
        Ok(Image { bytes })
    }

    /// Another owner of the same bytes. It takes no memory.
    ///
    /// Refused with `OutOfMemory` only if there are 2^63 - 1 owners.
    pub fn share(&self) -> Result<Image, OutOfMemory>
        ensures { IfOk result (λ image. image ≡ self.now) }
    {
        Ok(Image {
            bytes: Arc::try_clone(&self.bytes)?,
        })
    }

    /// The bytes.
    pub fn bytes(&self) -> &[u8]
        ensures { result.now ≡ self.now }
    {
        self.bytes.as_slice()
    }
}
