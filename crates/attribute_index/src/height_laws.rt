// What follows from the definitions of heights. Each law is the contract of a function that does nothing.
ghost use Rattle.std.specs.Prelude.{ℕ, ◌*◌, ◌^◌, ◌<◌, ◌≤◌};
ghost use Rattle.attribute_index.specs.Heights.{fewest};

/// A tree with as many pairs as a balanced one of its height has at least, and with fewer than 2 to the power
/// of some number, has at most twice that number of levels. The tree of an index is one (`IsBalanced`), and a
/// lookup visits at most one pair of each level.
pub fn few_pairs_have_few_levels()
    ensures { (number height pairs : ℕ) → fewest height ≤ pairs → pairs < 2 ^ number
        → height ≤ 2 * number }
{}
