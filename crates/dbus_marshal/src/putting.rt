// Values to bytes, or to their number (D-Bus Specification, "Marshaling"). Everything is little-endian.
ghost use Rattle.std.specs.Prelude.{◌≡◌, ◌+◌, ◌%◌, ◌<◌, ◌≤◌, ◌++◌, ℕ, List, [], ◌∷◌, length, min, OnOk};
ghost use Rattle.dbus_types.specs.declared.complete_type.BasicType.TheVariants.{Byte, Uint32, Uint64, String, ObjectPath};
ghost use Rattle.dbus_types.specs.Types.{Ty};
ghost use Rattle.dbus_types.specs.Values.{Val, Vals};
ghost use Rattle.dbus_marshal.specs.Wire.{alignment_of, number_bytes};
ghost use Rattle.dbus_types.specs.declared.endian.Endian.TheVariants.{Little};
ghost use Rattle.dbus_marshal.specs.Spelling.{first_at, all_spelled};
ghost use Rattle.dbus_marshal.specs.Putting.{padded, put, puts, signed, opened, elements_long};

use crate::places::padding;
use crate::put::{Counter, Put};

/// Puts zeros up to a multiple of the alignment.
#[tactic(auto, using(crate::proofs::WritingLemmas::zeros_front))]
pub fn pad_to<P: Put>(out: &mut P, alignment: usize) -> Result<(), P::Refused>
    requires some { 0 < alignment }
    requires most { alignment ≤ 8 }
    ensures { (before : List ℕ) → P.stands out.old before
        → OnOk result (P.stands out.new (padded alignment before)) }
{
    let count = padding(alignment, out.place());
    out.put(&[0; 8][..count])
}

/// Puts a BYTE.
pub fn put_byte<P: Put>(out: &mut P, number: u8) -> Result<(), P::Refused>
    ensures { (before : List ℕ) → P.stands out.old before
        → OnOk result (P.stands out.new (put before (Val.number Byte number))) }
{
    out.put(&[number])
}

/// Puts a UINT32.
#[tactic(auto, unfolding(crate::specs::Wire::number_bytes), using(crate::proofs::PutLemmas::word_put))]
pub fn put_u32<P: Put>(out: &mut P, number: u32) -> Result<(), P::Refused>
    ensures { (before : List ℕ) → P.stands out.old before
        → OnOk result (P.stands out.new (put before (Val.number Uint32 number))) }
{
    pad_to(out, 4)?;
    out.put(&number.to_le_bytes())
}

/// Puts a UINT64.
#[tactic(auto, unfolding(crate::specs::Wire::number_bytes), using(crate::proofs::PutLemmas::long_put))]
pub fn put_u64<P: Put>(out: &mut P, number: u64) -> Result<(), P::Refused>
    ensures { (before : List ℕ) → P.stands out.old before
        → OnOk result (P.stands out.new (put before (Val.number Uint64 number))) }
{
    pad_to(out, 8)?;
    out.put(&number.to_le_bytes())
}

/// Puts a STRING.
#[tactic(auto, using(crate::proofs::PutLemmas::text_put))]
pub fn put_text<P: Put>(out: &mut P, text: &[u8]) -> Result<(), P::Refused>
    ensures { (before : List ℕ) → P.stands out.old before
        → OnOk result (P.stands out.new (put before (Val.text String text.now))) }
{
    put_u32(out, (text.len() % 4_294_967_296) as u32)?;
    out.put(text)?;
    out.put(&[0])
}

/// Puts an OBJECT_PATH.
#[tactic(auto, using(crate::proofs::PutLemmas::path_put))]
pub fn put_path<P: Put>(out: &mut P, path: &[u8]) -> Result<(), P::Refused>
    ensures { (before : List ℕ) → P.stands out.old before
        → OnOk result (P.stands out.new (put before (Val.text ObjectPath path.now))) }
{
    put_u32(out, (path.len() % 4_294_967_296) as u32)?;
    out.put(path)?;
    out.put(&[0])
}

// The lower 32 bits of a sum.
fn low_sum(one: usize, other: usize) -> u32
    ensures { result ≡ (one + other) % 4294967296 }
{
    let low = (one % 4_294_967_296) + (other % 4_294_967_296);
    (low % 4_294_967_296) as u32
}

/// Puts an OBJECT_PATH that is given as two pieces.
#[tactic(auto, using(crate::proofs::PutLemmas::long_path_put))]
pub fn put_long_path<P: Put>(out: &mut P, front: &[u8], back: &[u8]) -> Result<(), P::Refused>
    ensures { (before : List ℕ) → P.stands out.old before → OnOk result
        (P.stands out.new (put before (Val.text ObjectPath (front.now ++ back.now)))) }
{
    put_u32(out, low_sum(front.len(), back.len()))?;
    out.put(front)?;
    out.put(back)?;
    out.put(&[0])
}

/// Puts an array of bytes, in one go.
#[tactic(auto, using(crate::proofs::PutLemmas::bytes_put))]
pub fn put_bytes<P: Put>(out: &mut P, bytes: &[u8]) -> Result<(), P::Refused>
    ensures { (before : List ℕ) → P.stands out.old before
        → OnOk result (P.stands out.new (put before (Val.bytes bytes.now))) }
{
    put_u32(out, (bytes.len() % 4_294_967_296) as u32)?;
    out.put(bytes)
}

/// Puts a SIGNATURE, of at most 255 bytes. A VARIANT is the signature of its value's type, followed
/// by the value.
#[tactic(auto, using(crate::proofs::PutLemmas::signature_put))]
pub fn put_signature<P: Put>(out: &mut P, signature: &[u8]) -> Result<(), P::Refused>
    ensures { (before : List ℕ) → P.stands out.old before
        → OnOk result (P.stands out.new (signed signature.now before)) }
{
    out.put(&[(signature.len() % 256) as u8])?;
    out.put(signature)?;
    out.put(&[0])
}

/// Puts a VARIANT of a STRING.
#[tactic(auto, using(crate::proofs::PutLemmas::variant_put))]
pub fn put_text_variant<P: Put>(out: &mut P, text: &[u8]) -> Result<(), P::Refused>
    ensures { (before : List ℕ) → P.stands out.old before
        → OnOk result (P.stands out.new (put before (Val.variant (Val.text String text.now)))) }
{
    put_signature(out, b"s")?;
    put_text(out, text)
}

/// Values that can be put one after the other, as the elements of an array or a message's body.
pub trait PutValues {
    ghost use Rattle.std.specs.Prelude.{ℕ, List, OnOk};
    ghost use Rattle.dbus_types.specs.Values.{Vals};
    ghost use Rattle.dbus_marshal.specs.Putting.{puts};

    ghost values: { Self → Vals };

    /// Puts the values.
    fn put_to<P: Put>(&self, out: &mut P) -> Result<(), P::Refused>
        ensures { (before : List ℕ) → P.stands out.old before
            → OnOk result (P.stands out.new (puts before (values self.now))) };
}

// The position of the first element of an array that is put next.
fn first_place<P: Put>(out: &P, alignment: usize) -> usize
    requires some { 0 < alignment }
    requires most { alignment ≤ 8 }
    ensures place { (before : List ℕ) → P.stands out.now before
        → result ≡ first_at alignment (length before % 8) }
    ensures below { result < 8 }
{
    let place = out.place();
    let length_end = ((place + padding(4, place)) % 8 + 4) % 8;
    (length_end + padding(alignment, length_end)) % 8
}

// Puts the start of an array. `count` is the lower 32 bits of the number of bytes of its elements.
#[tactic(auto, unfolding(crate::specs::Putting::opened))]
fn open_array<P: Put>(out: &mut P, alignment: usize, count: u32) -> Result<(), P::Refused>
    requires some { 0 < alignment }
    requires most { alignment ≤ 8 }
    ensures { (before : List ℕ) (long : ℕ) → count ≡ long % 4294967296 → P.stands out.old before
        → OnOk result (P.stands out.new (opened alignment long before)) }
{
    put_u32(out, count)?;
    pad_to(out, alignment)
}

/// The lower 32 bits of the number of bytes that the values have when they are put from
/// this position on.
pub fn count_from<E: PutValues>(elements: &E, first: usize) -> u32
    requires { first < 8 }
    ensures { (place : ℕ) → first ≡ place
        → result ≡ length (all_spelled Little (E.values elements.now) place) % 4294967296 }
{
    let mut counter = Counter::at(first);
    match elements.put_to(&mut counter) {
        Ok(()) => {}
        Err(never) => match never {},
    }
    counter.low_after(first)
}

/// The number of bytes that the values have at the start of a body, or 18,446,744,073,709,551,615
/// if they have more. It takes no memory.
pub fn size_of_values<E: PutValues>(values: &E) -> u64
    ensures { result ≡ min 18446744073709551615
        (length (all_spelled Little (E.values values.now) 0)) }
{
    let mut counter = Counter::new();
    match values.put_to(&mut counter) {
        Ok(()) => {}
        Err(never) => match never {},
    }
    counter.size()
}

/// Puts an array whose elements have this alignment. It goes through the elements twice: once to
/// count their bytes, and once to put them.
pub fn put_array<P: Put, E: PutValues>(
    out: &mut P,
    alignment: usize,
    elements: &E,
) -> Result<(), P::Refused>
    requires some { 0 < alignment }
    requires most { alignment ≤ 8 }
    ensures { (before : List ℕ) (t : Ty) → alignment ≡ alignment_of t → P.stands out.old before
        → OnOk result (P.stands out.new (put before (Val.array t (E.values elements.now)))) }
{
    let first = first_place(out, alignment);
    let count = count_from(elements, first);
    open_array(out, alignment, count)?;
    elements.put_to(out)
}
