// The result of a row, as a line of text.

use itoa::Buffer;
use std::alloc::Global;

/// A text that is put together part by part. Adding a part can't fail: once memory was lacking for one, the whole text is
/// `out of memory`, so no caller needs a `?`.
#[derive(Drop)]
pub struct Line {
    alloc: Global,
    text: String,
    is_whole: bool,
}

impl Line {
    /// A line without parts.
    pub fn new(alloc: Global) -> Line {
        let text = String::new(alloc);
        Line {
            alloc,
            text,
            is_whole: true,
        }
    }

    /// The allocator of its parts.
    pub fn alloc(&self) -> Global {
        self.alloc
    }

    /// The text.
    pub fn as_str(&self) -> &str {
        if self.is_whole {
            self.text.as_str()
        } else {
            "out of memory"
        }
    }

    /// Removes all parts.
    pub fn clear(&mut self) {
        self.text.clear();
        self.is_whole = true;
    }

    /// Adds a text.
    pub fn add(&mut self, part: &str) {
        if self.text.push_str(part).is_err() {
            self.lack();
        }
    }

    /// Adds a number in decimal.
    pub fn number(&mut self, number: u64) {
        let mut buffer = Buffer::new();
        self.add(buffer.format(number));
    }

    /// Adds bytes in hex.
    pub fn hex(&mut self, bytes: &[u8]) {
        match hex::encode(self.alloc, bytes) {
            Ok(digits) => self.add(digits.as_str()),
            Err(_) => self.lack(),
        }
    }

    /// Notes that memory was lacking.
    pub fn lack(&mut self) {
        self.is_whole = false;
    }
}
