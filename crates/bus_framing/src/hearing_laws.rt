// A law of the definition of what is heard. It is the contract of a function that does nothing.
ghost use Rattle.std.specs.Prelude.{ℕ, List};
ghost use Rattle.bus_framing.specs.Looks.{Said};
ghost use Rattle.bus_framing.specs.Links.{AreHeard, IsLinked, Linking, fed_with};

/// What is heard doesn't depend on how the bytes are cut: what is heard before more bytes come is
/// heard in all of them, and leaves the same.
pub fn what_is_heard_does_not_depend_on_cuts()
    ensures { (from to : Linking) (saids : List Said) (piece : List ℕ) → IsLinked from
        → AreHeard from saids to → AreHeard (fed_with piece from) saids (fed_with piece to) }
{}
