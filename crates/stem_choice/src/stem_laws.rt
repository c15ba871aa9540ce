// Laws of the definitions of used stems and of the choice. Each law is the contract of a function that
// does nothing.
ghost use Rattle.std.specs.Prelude.{◌≡◌, ◌↔◌, ◌<◌, ◌^◌, ◌||◌, ℕ, List, length, true, Contains};
ghost use Rattle.kr_base.specs.Attributes.{is_name};
ghost use Rattle.kr_base.specs.Stem.{IsStem};
ghost use Rattle.stem_choice.specs.Choice.{IsChosen, chosen};
ghost use Rattle.stem_choice.specs.UsedStems.{is_used, with_stem};

/// A stem is used if it is in the list of those that are used.
pub fn a_used_stem_is_in_the_list()
    ensures { (stem : List ℕ) (used : List (List ℕ))
        → (is_used stem used ≡ true) ↔ Contains used stem }
{}

/// After a stem was added it is used, and so are those that were used before, and no others.
pub fn adding_a_stem_uses_it_alone()
    ensures { (stem other : List ℕ) (used : List (List ℕ))
        → is_used other (with_stem stem used) ≡ (is_name other stem || is_used other used) }
{}

/// A label has one stem, which is that of the function `chosen`, whatever stems are used. Only a list of
/// 2^63 stems or more, which no memory has, might contain all candidates.
pub fn the_chosen_stem_is_the_first_free_one()
    ensures { (label stem : List ℕ) (used : List (List ℕ)) → length used < 2 ^ 63
        → IsChosen label used stem ↔ (stem ≡ chosen label used) }
{}

/// The stem that a label has is a stem, whatever stems are used, and however many.
pub fn a_chosen_stem_is_a_stem()
    ensures { (label : List ℕ) (used : List (List ℕ)) → IsStem (chosen label used) }
{}
