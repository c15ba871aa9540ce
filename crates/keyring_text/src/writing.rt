ghost use Rattle.std.specs.Prelude.{◌≡◌, ◌<◌, ◌++◌, length, OnOk};
ghost use Rattle.keyring_text.specs.Fields as fields;

use kr_base::OutOfMemory;

/// Writes a number at the end of a vector: four bytes, the highest first.
#[tactic(auto, unfolding(crate::specs::Fields::number))]
pub fn put_number(out: &mut Vec<u8>, number: u32) -> Result<(), OutOfMemory>
    ensures { OnOk result (out.new.items ≡ out.old.items ++ fields.number number) }
{
    out.extend_from_slice(&number.to_be_bytes())
}

/// Writes a time at the end of a vector: eight bytes, the highest first.
#[tactic(auto, unfolding(crate::specs::Fields::time))]
pub fn put_time(out: &mut Vec<u8>, seconds: u64) -> Result<(), OutOfMemory>
    ensures { OnOk result (out.new.items ≡ out.old.items ++ fields.time seconds) }
{
    out.extend_from_slice(&seconds.to_be_bytes())
}

/// Writes a string at the end of a vector: its length and its bytes.
pub fn put_string(out: &mut Vec<u8>, bytes: &[u8]) -> Result<(), OutOfMemory>
    requires { length bytes.now < fields.none_length }
    ensures { OnOk result (out.new.items ≡ out.old.items ++ fields.string bytes.now) }
{
    put_number(out, bytes.len() as u32)?;
    out.extend_from_slice(bytes)
}
