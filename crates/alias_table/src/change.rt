// A change that was prepared, with all the memory that it needs.
ghost use Rattle.std.specs.Prelude.{◌≡◌, IfOk};
ghost use Rattle.alias_text.specs.Writing.{AreAliases, text_of};
ghost use Rattle.alias_table.specs.Changed.{IsStorable, few};

use alias_text::{a_thousand_aliases_fit, write_aliases};
use kr_base::{OutOfMemory, Stem, Text};
use kr_items::Items;
use replace_slot::Image;
use std::alloc::Global;
use std::marker::Model;

/// How many aliases there may be.
const MOST_ALIASES: usize = 1_024;

/// Aliases that can be stored, with their text.
#[derive(Drop)]
pub struct Next {
    aliases: Items<(Text, Stem)>,
    image: Image,
}

impl Model for Next {
    ghost use Rattle.alias_table.specs.Changed.{Aliases, IsStorable};

    ghost Value = { Aliases };

    ghost view = { λ n. n.aliases };

    ghost invariant = { λ n. IsStorable n.aliases n.image };
}

impl Next {
    /// These aliases with their text; None if there are too many.
    pub fn of(alloc: Global, aliases: Vec<(Text, Stem)>) -> Result<Option<Next>, OutOfMemory>
        requires { AreAliases aliases.items }
        ensures { IfOk result (λ next. next ≡ few aliases.items) }
    {
        if aliases.len() > MOST_ALIASES {
            return Ok(None);
        }
        // So the text isn't too long, and can be read again.
        a_thousand_aliases_fit();
        let text = write_aliases(alloc, &aliases)?;
        let image = Image::new(alloc, text)?;
        Ok(Some(Next {
            aliases: Items::new(aliases),
            image,
        }))
    }

    /// The aliases and the image of their text.
    pub fn into_parts(self) -> (Items<(Text, Stem)>, Image)
        ensures aliases { result.0 ≡ self }
        ensures image { result.1 ≡ text_of self }
        ensures storable { IsStorable self (text_of self) }
    {
        (self.aliases, self.image)
    }
}

/// A change of the aliases that was prepared, with all the memory that storing it needs.
#[derive(Drop)]
pub struct AliasChange {
    next: Option<Next>,
    newer: Option<Option<Next>>,
    buffer: Vec<u8>,
}

impl Model for AliasChange {
    ghost use Rattle.alias_table.specs.Table.{Change};

    ghost Value = { Change };

    ghost view = { λ c. record { next = c.next; newer = c.newer; buffer = c.buffer.items } };
}

impl AliasChange {
    /// A change with these parts: what it makes of the aliases that are read and, in doubt, of those of
    /// the newer image; and the buffer that a resolve reads the file into.
    pub(crate) fn new(
        next: Option<Next>,
        newer: Option<Option<Next>>,
        buffer: Vec<u8>,
    ) -> AliasChange
        ensures { result ≡ record { next = next; newer = newer; buffer = buffer.items } }
    {
        AliasChange {
            next,
            newer,
            buffer,
        }
    }

    /// The parts.
    pub(crate) fn into_parts(self) -> (Option<Next>, Option<Option<Next>>, Vec<u8>)
        ensures next { result.0 ≡ self.next }
        ensures newer { result.1 ≡ self.newer }
        ensures buffer { result.2.items ≡ self.buffer }
    {
        (self.next, self.newer, self.buffer)
    }
}
