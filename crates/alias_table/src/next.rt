// What a change makes of the aliases.
ghost use Rattle.std.specs.Prelude.{◌≡◌, ◌++◌, ◌∷◌, [], IfOk, OnOk};
ghost use Rattle.std.specs.Cmp.Lexicographic.{slice_cmp};
ghost use Rattle.std.specs.Option.{option_copied};
ghost use Rattle.std.specs.Ordering.{nat_cmp, is_lt};
ghost use Rattle.kr_base.specs.Attributes.{IsInOrder, value_at};
ghost use Rattle.alias_table.specs.Changed.{is_live, kept, before, after, changed};

use kr_base::{OutOfMemory, Stem, Text};
use std::alloc::Global;

/// The stem that the alias of this name stands for; None if there is no such alias.
pub fn stem_at<'a>(aliases: &'a [(Text, Stem)], name: &str) -> Option<&'a Stem>
    requires { IsInOrder aliases.now }
    ensures { option_copied result ≡ value_at name.now aliases.now }
{
    match aliases.binary_search_by(|alias| alias.0.as_str().cmp(name)) {
        Ok(place) => Some(&aliases[place].1),
        Err(_) => None,
    }
}

/// The aliases after a change: those whose collection is gone are dropped, and the alias of this name is
/// set to the stem, or removed.
pub fn changed_aliases(
    alloc: Global,
    aliases: &[(Text, Stem)],
    name: &Text,
    stem: &Option<Stem>,
    live: &[Stem],
) -> Result<Vec<(Text, Stem)>, OutOfMemory>
    ensures { IfOk result (λ next. next.items ≡ changed name.now stem.now live.now aliases.now) }
{
    let mut next = Vec::new(alloc);
    copy_before(aliases, name.as_str(), live, &mut next)?;
    if let Some(stem) = stem {
        let name = name.copy()?;
        let stem = stem.copy()?;
        next.push((name, stem))?;
    }
    copy_after(aliases, name.as_str(), live, &mut next)?;
    Ok(next)
}

// Appends the aliases whose names come before this one and whose collection exists.
fn copy_before(
    aliases: &[(Text, Stem)],
    name: &str,
    live: &[Stem],
    next: &mut Vec<(Text, Stem)>,
) -> Result<(), OutOfMemory>
    ensures { OnOk result
        (next.new.items ≡ next.old.items ++ before name.now (kept live.now aliases.now)) }
{
    for alias in aliases {
        if alias.0.as_str() < name && is_live(live, &alias.1) {
            push_copy(alias, next)?;
        }
    }
    Ok(())
}

// Appends the aliases whose names come after this one and whose collection exists.
fn copy_after(
    aliases: &[(Text, Stem)],
    name: &str,
    live: &[Stem],
    next: &mut Vec<(Text, Stem)>,
) -> Result<(), OutOfMemory>
    ensures { OnOk result
        (next.new.items ≡ next.old.items ++ after name.now (kept live.now aliases.now)) }
{
    for alias in aliases {
        if name < alias.0.as_str() && is_live(live, &alias.1) {
            push_copy(alias, next)?;
        }
    }
    Ok(())
}

// Appends a copy of an alias.
fn push_copy(alias: &(Text, Stem), next: &mut Vec<(Text, Stem)>) -> Result<(), OutOfMemory>
    ensures { OnOk result (next.new.items ≡ next.old.items ++ alias.now ∷ []) }
{
    let name = alias.0.copy()?;
    let stem = alias.1.copy()?;
    next.push((name, stem))?;
    Ok(())
}

// Whether the stem is that of a collection that exists.
fn is_live(live: &[Stem], stem: &Stem) -> bool
    ensures { result ≡ is_live live.now stem.now }
{
    live.iter().any(|other| stem.cmp(other).is_eq())
}
