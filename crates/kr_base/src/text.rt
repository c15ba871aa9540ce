ghost use Rattle.std.specs.Prelude.{◌≡◌, ℕ, ◌++◌, ◌↔◌, List, [], length, IsTrue, IsNone, IsSome, IfSome, IfOk, Ok, Some, None, decimal, codes, string_bytes, nat_eq, refl};
ghost use Rattle.std.specs.Fmt.{styled_text};
ghost use Rattle.std.specs.Hash as fed;
ghost use Rattle.std.specs.Ordering.{nat_cmp};
ghost use Rattle.std.specs.Cmp.{partial_equiv_from_equiv};
ghost use Rattle.std.specs.Cmp.Lexicographic.{pointwise, slice_cmp, nat_list_eq_equiv, nat_list_cmp_total, texts_ties, texts_po};
ghost use Rattle.std.specs.Cmp.Rules.{hashing};
ghost use Rattle.std.proofs.Common.{rules};
ghost use Rattle.kr_base.specs.Held.{held_text};
ghost use Rattle.kr_base.specs.Text.{HasZero, IsText};

use crate::OutOfMemory;
use arrayvec::ArrayString;
use itoa::Buffer;
use std::alloc::Global;
use std::cmp::Ordering;
use std::fmt;
use std::hash::{Hash, Hasher};
use std::marker::Model;

/// Where the bytes of a text are kept. Most names, labels and content types are short, and a
/// keyring file contains tens of thousands of them.
#[derive(Drop)]
enum Held {
    /// In the value itself: at most 24 bytes.
    Short(ArrayString<24>),
    /// In memory of their own.
    Long(String),
}

/// A text: UTF-8 without a zero byte (D-Bus Specification, "Type System"). A contract sees the list
/// of its bytes.
#[derive(Drop)]
pub struct Text {
    held: Held,
}

impl Model for Text {
    ghost Value = { List ℕ };

    ghost view = { λ t. held_text t.held };

    ghost invariant = { λ t. IsText (held_text t.held) };
}

impl Text {
    /// The text of a string. It takes no memory.
    ///
    /// None if the string contains a zero byte.
    pub fn new(text: String) -> Option<Text>
        ensures made { IfSome result (λ made. made ≡ string_bytes text) }
        ensures zero { IsNone result ↔ HasZero (string_bytes text) }
    {
        // Read as a `str`, whose bytes are known to be UTF-8.
        if text.as_str().as_bytes().contains(&0) {
            return None;
        }
        Some(Text {
            held: Held::Long(text),
        })
    }

    /// A copy of a string as a text. It takes no memory if the string has at most 24 bytes.
    ///
    /// None if the string contains a zero byte; no memory is taken then.
    pub fn from_str(alloc: Global, text: &str) -> Result<Option<Text>, OutOfMemory>
        ensures made { IfOk result (λ answer. IfSome answer (λ made. made ≡ text.now)) }
        ensures zero { (result ≡ Ok None) ↔ HasZero text.now }
    {
        if text.as_bytes().contains(&0) {
            return Ok(None);
        }
        let held = match ArrayString::from(text) {
            Ok(short) => Held::Short(short),
            Err(_) => Held::Long(String::from_str(alloc, text)?),
        };
        Ok(Some(Text { held }))
    }

    /// The decimal text of a number. It takes no memory.
    pub fn of_number(number: u32) -> Text
        ensures { result ≡ decimal number }
    {
        let mut buffer = Buffer::new();
        let digits = buffer.format(number);
        match ArrayString::from(digits) {
            Ok(short) => Text {
                held: Held::Short(short),
            },
            Err(_) => unreachable!(),
        }
    }

    /// The bytes as a text. It takes no memory.
    ///
    /// None if the bytes aren't UTF-8 or contain a zero byte.
    pub fn from_utf8(bytes: Vec<u8>) -> Option<Text>
        ensures made { IfSome result (λ made. made ≡ bytes.items) }
        ensures text { IsSome result ↔ IsText bytes.items }
    {
        match String::from_utf8(bytes) {
            Ok(text) => Text::new(text),
            Err(_) => None,
        }
    }

    /// The text, borrowed as a string slice.
    pub fn as_str(&self) -> &str
        ensures value { result.now ≡ self.now }
        ensures text { IsText self.now }
    {
        match &self.held {
            Held::Short(text) => text.as_str(),
            Held::Long(text) => text.as_str(),
        }
    }

    /// The bytes of the text, borrowed.
    pub fn as_bytes(&self) -> &[u8]
        ensures value { result.now ≡ self.now }
        ensures text { IsText self.now }
    {
        self.as_str().as_bytes()
    }

    /// The number of bytes of the text.
    pub fn len(&self) -> usize
        ensures { result ≡ length self.now }
    {
        self.as_str().len()
    }

    /// Whether the text has no bytes.
    pub fn is_empty(&self) -> bool
        ensures { IsTrue result ↔ (self.now ≡ []) }
    {
        self.as_str().is_empty()
    }

    /// A copy of the text, with the same allocator. It takes no memory if the text is kept in
    /// the value itself.
    pub fn copy(&self) -> Result<Text, OutOfMemory>
        ensures { IfOk result (λ copied. copied ≡ self.now) }
    {
        let held = match &self.held {
            Held::Short(text) => Held::Short(*text),
            Held::Long(text) => Held::Long(text.clone()?),
        };
        Ok(Text { held })
    }
}

impl PartialEq for Text {
    ghost eq = { pointwise nat_eq };

    ghost laws = { partial_equiv_from_equiv nat_list_eq_equiv };

    fn eq(&self, other: &Text) -> bool {
        self.as_str() == other.as_str()
    }
}

impl Eq for Text {
    ghost laws = { nat_list_eq_equiv };
}

impl PartialOrd for Text {
    ghost partial_cmp = { λ x y. Some (slice_cmp nat_cmp x y) };

    ghost laws = { texts_po };

    fn partial_cmp(&self, other: &Text) -> Option<Ordering> {
        Some(self.cmp(other))
    }
}

impl Ord for Text {
    ghost cmp = { slice_cmp nat_cmp };

    ghost total = { nat_list_cmp_total };

    ghost matches_partial_cmp = { λ x y. refl };

    ghost matches_eq = { texts_ties };

    fn cmp(&self, other: &Text) -> Ordering {
        self.as_str().cmp(other.as_str())
    }
}

impl Hash for Text {
    ghost hash_input = { fed.str };

    ghost respects_eq = { Prim.search (hashing, rules) };

    fn hash<H: Hasher>(&self, state: &mut H) {
        self.as_str().hash(state);
    }
}

impl fmt::Display for Text {
    ghost output = { λ t. Some t };

    ghost styled_output = { λ t options. Some (styled_text options t) };

    fn fmt<W: fmt::Write>(&self, f: &mut fmt::Formatter<W>) -> fmt::Result {
        fmt::Display::fmt(&self.as_str(), f)
    }
}

// A text may be a client's, so a message or a log shows only how long it is.
impl fmt::Debug for Text {
    ghost debug_output = { λ t. Some (decimal (length t) ++ codes " bytes") };

    fn fmt<W: fmt::Write>(&self, f: &mut fmt::Formatter<W>) -> fmt::Result {
        let len = self.len();
        write!(f, "{len} bytes")
    }
}
