// What the definition of a change says of each alias. Each law is the contract of a function that does
// nothing.
ghost use Rattle.std.specs.Prelude.{◌≡◌, ◌≢◌, ℕ, List, Option};
ghost use Rattle.kr_base.specs.Attributes.{IsInOrder, value_at};
ghost use Rattle.alias_table.specs.Changed.{changed, live_only};

/// After a change the alias stands for the stem that it was set to, or for none if it was removed.
pub fn a_set_alias_is_read()
    ensures { (name : List ℕ) (stem : Option (List ℕ)) (live : List (List ℕ))
        (aliases : List (List ℕ × List ℕ)) → value_at name (changed name stem live aliases) ≡ stem }
{}

/// Every other alias still stands for its stem if that collection exists, and otherwise for none.
pub fn other_aliases_stay()
    ensures { (name other : List ℕ) (stem : Option (List ℕ)) (live : List (List ℕ))
        (aliases : List (List ℕ × List ℕ)) → IsInOrder aliases → other ≢ name
        → value_at other (changed name stem live aliases)
        ≡ live_only live (value_at other aliases) }
{}
