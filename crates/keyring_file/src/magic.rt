ghost use Rattle.std.specs.Prelude.{◌≡◌, length, take, min, nat_eq};
ghost use Rattle.std.specs.Cmp.Lexicographic.{pointwise};
ghost use Rattle.keyring_file.specs.ClearText.{magic};

/// The first 16 bytes of every keyring file.
pub const MAGIC: [u8; 16] = *b"GnomeKeyring\n\r\0\n";

/// Whether the first 16 bytes, or as many as there are, are those of every keyring file.
pub fn begins_with_magic(bytes: &[u8]) -> bool
    ensures { result ≡ pointwise nat_eq (take (min (length bytes.now) 16) bytes.now)
        (take (min (length bytes.now) 16) magic) }
{
    let there = bytes.len().min(16);
    bytes[..there] == MAGIC[..there]
}
