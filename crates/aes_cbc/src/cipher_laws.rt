// Laws of the definitions. The functions compute nothing.

ghost use Rattle.std.specs.Prelude.{◌≡◌, ◌%◌, length};
ghost use Rattle.aes_cbc.specs.Cbc.{decrypted, encrypted};

/// A law, stated by the contract: whole blocks that are encrypted and then decrypted, under one key
/// and vector, are as before, and as long in between. The call does nothing.
pub fn decrypting_undoes_encrypting(key: [u8; 16], vector: [u8; 16], blocks: &[u8])
    requires { length blocks.now % 16 ≡ 0 }
    ensures undone { decrypted key vector (encrypted key vector blocks.now) ≡ blocks.now }
    ensures as_long { length (encrypted key vector blocks.now) ≡ length blocks.now }
{}

/// A law, stated by the contract: whole blocks that are decrypted and then encrypted, under one key
/// and vector, are as before, and as long in between. The call does nothing.
pub fn encrypting_undoes_decrypting(key: [u8; 16], vector: [u8; 16], blocks: &[u8])
    requires { length blocks.now % 16 ≡ 0 }
    ensures undone { encrypted key vector (decrypted key vector blocks.now) ≡ blocks.now }
    ensures as_long { length (decrypted key vector blocks.now) ≡ length blocks.now }
{}
