// A law of the definitions of an address. It is the contract of a function that does nothing.
ghost use Rattle.std.specs.Prelude.{◌≡◌, ◌∷◌, ◌↔◌, ℕ, List};
ghost use Rattle.bus_address.specs.Pieces.{IsJoined, pieces};

/// The pieces of a text are those that the separator joins to it, and that don't contain it: there is
/// one such list.
pub fn pieces_are_joined_by_the_separator()
    ensures { (separator : ℕ) (text first : List ℕ) (more : List (List ℕ))
        → IsJoined separator text first more ↔ (pieces separator text ≡ first ∷ more) }
{}
