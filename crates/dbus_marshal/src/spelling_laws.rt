// Laws of the definitions. The functions compute nothing.

ghost use Rattle.std.specs.Prelude.{◌≡◌, ℕ, List, [], ◌++◌, IsTrue};
ghost use Rattle.dbus_types.specs.Types.{Ty, Tys, is_signature};
ghost use Rattle.dbus_types.specs.Values.{Val, Vals};
ghost use Rattle.dbus_marshal.specs.Marshals.{Marshals, AreSpelled};

use dbus_types::Endian;

/// A law, stated by the contract: a value of a type has at most one list of bytes at a position.
/// The call does nothing.
pub fn a_value_has_one_spelling(endian: Endian, place: u64)
    ensures { (depth : ℕ) (t : Ty) (v : Val) (xs ys : List ℕ)
        → Marshals depth endian place t v xs → Marshals depth endian place t v ys → xs ≡ ys }
{}

/// A law, stated by the contract: bytes are the spelling of at most one list of values, and no
/// spelling of a signature's types begins another one. The call does nothing.
pub fn no_spelling_goes_on(endian: Endian, place: u64)
    ensures { (ts : Tys) (vs ws : Vals) (bytes rest : List ℕ) → IsTrue (is_signature ts)
        → AreSpelled endian place ts vs bytes → AreSpelled endian place ts ws (bytes ++ rest)
        → (vs ≡ ws) × (rest ≡ []) }
{}
