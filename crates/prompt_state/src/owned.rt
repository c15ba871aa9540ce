// Who owns which prompt: pairs of an owner's and a prompt's number, in order. The time that a
// connection's calls take grows with the number of its own prompts, and with the logarithm of the
// number of all prompts.
ghost use Rattle.std.specs.Prelude.{◌≡◌, ℕ, ◌+◌, ◌^◌, ◌++◌, ◌∷◌, [], not, nat_eq, length, filter, if◌then◌else◌, IfSome, IfNone, OnOk, OnErr};
ghost use Rattle.prompt_state.specs.Kept.{numbers_at, AreInOrder, AreBelow, IsFirst};

use kr_base::OutOfMemory;
use std::collections::BTreeSet;

/// The number of prompts of an owner.
pub fn count_of(pairs: &BTreeSet<(u64, u64)>, owner: u64) -> usize
    requires { AreBelow (2 ^ 64) pairs.now.keys }
    ensures { result ≡ length (numbers_at owner pairs.now.keys) }
{
    pairs.range((owner, 0)..=(owner, u64::MAX)).count()
}

/// An owner's prompt with the least number.
pub fn first_of(pairs: &BTreeSet<(u64, u64)>, owner: u64) -> Option<u64>
    requires { AreBelow (2 ^ 64) pairs.now.keys }
    ensures found { IfSome result (λ number. IsFirst number (numbers_at owner pairs.now.keys)) }
    ensures none { IfNone result (numbers_at owner pairs.now.keys ≡ []) }
{
    match pairs.range((owner, 0)..=(owner, u64::MAX)).next() {
        Some(pair) => Some(pair.1),
        None => None,
    }
}

/// Adds a prompt. Its number is above all that were used before.
pub fn add(pairs: &mut BTreeSet<(u64, u64)>, owner: u64, next: u64) -> Result<(), OutOfMemory>
    requires ordered { AreInOrder pairs.old.keys }
    requires given { AreBelow next pairs.old.keys }
    ensures added { OnOk result ((other : ℕ) → numbers_at other pairs.new.keys
        ≡ (if nat_eq owner other then numbers_at other pairs.old.keys ++ next ∷ []
        else numbers_at other pairs.old.keys)) }
    ensures unchanged { OnErr result (pairs.new.keys ≡ pairs.old.keys) }
    ensures ordered { AreInOrder pairs.new.keys }
{
    pairs.insert((owner, next))?;
    Ok(())
}

/// Removes a prompt of an owner.
pub fn take(pairs: &mut BTreeSet<(u64, u64)>, owner: u64, number: u64)
    requires { AreInOrder pairs.old.keys }
    ensures others { (other : ℕ) → numbers_at other pairs.new.keys
        ≡ (if nat_eq owner other
        then filter (λ one. not (nat_eq one number)) (numbers_at other pairs.old.keys)
        else numbers_at other pairs.old.keys) }
    ensures ordered { AreInOrder pairs.new.keys }
{
    let _ = pairs.remove(&(owner, number));
}
