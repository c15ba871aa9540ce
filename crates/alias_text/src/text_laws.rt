// Laws of the definitions: how a text that is written is read. Each law is the contract of a function
// that does nothing.
ghost use Rattle.std.specs.Prelude.{◌≡◌, ◌≤◌, ◌↔◌, ℕ, List, length};
ghost use Rattle.alias_text.specs.Pairs.{longest, AliasesOf};
ghost use Rattle.alias_text.specs.Writing.{AreAliases, most_aliases, text_of};

/// The text that is written of aliases is read as these aliases, and as no others, if it isn't too long.
pub fn what_is_written_is_read()
    ensures { (aliases read : List (List ℕ × List ℕ)) → AreAliases aliases
        → length (text_of aliases) ≤ longest
        → AliasesOf (text_of aliases) read ↔ (read ≡ aliases) }
{}

/// Bytes give only one list of aliases.
pub fn bytes_give_one_list()
    ensures { (bytes : List ℕ) (one other : List (List ℕ × List ℕ))
        → AliasesOf bytes one → AliasesOf bytes other → one ≡ other }
{}

/// The aliases that bytes give can be written.
pub fn what_is_read_can_be_written()
    ensures { (bytes : List ℕ) (aliases : List (List ℕ × List ℕ))
        → AliasesOf bytes aliases → AreAliases aliases }
{}

/// The text of the most aliases that are stored isn't too long.
pub fn a_thousand_aliases_fit()
    ensures { (aliases : List (List ℕ × List ℕ)) → AreAliases aliases
        → length aliases ≤ most_aliases
        → length (text_of aliases) ≤ longest }
{}
