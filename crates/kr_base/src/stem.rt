ghost use Rattle.std.specs.Prelude.{◌≡◌, ℕ, ◌++◌, ◌↔◌, List, length, IsNone, IfSome, IfOk, Ok, Some, None, decimal, codes, nat_eq, refl};
ghost use Rattle.std.specs.Bool.{OnTrue, OnFalse};
ghost use Rattle.std.specs.Fmt.{styled_text};
ghost use Rattle.std.specs.Hash as fed;
ghost use Rattle.std.specs.Ordering.{nat_cmp};
ghost use Rattle.std.specs.Cmp.{partial_equiv_from_equiv};
ghost use Rattle.std.specs.Cmp.Lexicographic.{pointwise, slice_cmp, nat_list_eq_equiv, nat_list_cmp_total, texts_ties, texts_po};
ghost use Rattle.std.specs.Cmp.Rules.{hashing};
ghost use Rattle.std.proofs.Common.{rules};
ghost use Rattle.kr_base.specs.Stem.{IsStem, IsNoStem};

use crate::{OutOfMemory, Text};
use std::alloc::Global;
use std::cmp::Ordering;
use std::fmt;
use std::hash::{Hash, Hasher};
use std::marker::Model;

/// The most bytes of a stem.
const STEM_LIMIT: usize = 243;

/// A collection's stem: the name of its file without `.keyring`. It has 1 to 243 bytes and contains
/// no `/`. A contract sees the list of its bytes.
#[derive(Drop)]
pub struct Stem {
    text: Text,
}

impl Model for Stem {
    ghost Value = { List ℕ };

    ghost view = { λ s. s.text };

    ghost invariant = { λ s. IsStem s.text };
}

/// Whether the string can be a stem.
fn is_stem(text: &str) -> bool
    ensures yes { OnTrue result (IsStem text.now) }
    ensures no { OnFalse result (IsNoStem text.now) }
{
    if text.is_empty() || text.len() > STEM_LIMIT {
        return false;
    }
    !text.as_bytes().contains(&b'/') && !text.as_bytes().contains(&0)
}

impl Stem {
    /// A copy of a string as a stem.
    ///
    /// None if the string is empty, is longer than 243 bytes, or contains `/` or a zero byte; no
    /// memory is taken then.
    pub fn new(alloc: Global, text: &str) -> Result<Option<Stem>, OutOfMemory>
        ensures made { IfOk result (λ answer. IfSome answer (λ made. made ≡ text.now)) }
        ensures no_stem { (result ≡ Ok None) ↔ IsNoStem text.now }
    {
        if !is_stem(text) {
            return Ok(None);
        }
        match Text::from_str(alloc, text)? {
            Some(text) => Ok(Some(Stem { text })),
            None => unreachable!(),
        }
    }

    /// A text as a stem. It takes no memory.
    ///
    /// None if the text is empty, is longer than 243 bytes, or contains `/`.
    pub fn from_text(text: Text) -> Option<Stem>
        ensures made { IfSome result (λ made. made ≡ text) }
        ensures no_stem { IsNone result ↔ IsNoStem text }
    {
        if !is_stem(text.as_str()) {
            return None;
        }
        Some(Stem { text })
    }

    /// The stem, borrowed as a string slice.
    pub fn as_str(&self) -> &str
        ensures value { result.now ≡ self.now }
        ensures stem { IsStem self.now }
    {
        self.text.as_str()
    }

    /// The stem, borrowed as a text.
    pub fn as_text(&self) -> &Text
        ensures value { result.now ≡ self.now }
        ensures stem { IsStem self.now }
    {
        &self.text
    }

    /// The stem as a text. It takes no memory.
    pub fn into_text(self) -> Text
        ensures value { result ≡ self }
        ensures stem { IsStem self }
    {
        self.text
    }

    /// A copy of the stem, with the same allocator.
    pub fn copy(&self) -> Result<Stem, OutOfMemory>
        ensures { IfOk result (λ copied. copied ≡ self.now) }
    {
        Ok(Stem {
            text: self.text.copy()?,
        })
    }
}

impl PartialEq for Stem {
    ghost eq = { pointwise nat_eq };

    ghost laws = { partial_equiv_from_equiv nat_list_eq_equiv };

    fn eq(&self, other: &Stem) -> bool {
        self.text == other.text
    }
}

impl Eq for Stem {
    ghost laws = { nat_list_eq_equiv };
}

impl PartialOrd for Stem {
    ghost partial_cmp = { λ x y. Some (slice_cmp nat_cmp x y) };

    ghost laws = { texts_po };

    fn partial_cmp(&self, other: &Stem) -> Option<Ordering> {
        Some(self.cmp(other))
    }
}

impl Ord for Stem {
    ghost cmp = { slice_cmp nat_cmp };

    ghost total = { nat_list_cmp_total };

    ghost matches_partial_cmp = { λ x y. refl };

    ghost matches_eq = { texts_ties };

    fn cmp(&self, other: &Stem) -> Ordering {
        self.text.cmp(&other.text)
    }
}

impl Hash for Stem {
    ghost hash_input = { fed.str };

    ghost respects_eq = { Prim.search (hashing, rules) };

    fn hash<H: Hasher>(&self, state: &mut H) {
        self.text.hash(state);
    }
}

impl fmt::Display for Stem {
    ghost output = { λ s. Some s };

    ghost styled_output = { λ s options. Some (styled_text options s) };

    fn fmt<W: fmt::Write>(&self, f: &mut fmt::Formatter<W>) -> fmt::Result {
        fmt::Display::fmt(&self.text, f)
    }
}

impl fmt::Debug for Stem {
    ghost debug_output = { λ s. Some (decimal (length s) ++ codes " bytes") };

    fn fmt<W: fmt::Write>(&self, f: &mut fmt::Formatter<W>) -> fmt::Result {
        fmt::Debug::fmt(&self.text, f)
    }
}
