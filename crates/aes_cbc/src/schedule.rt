// The key schedule (FIPS 197, 5.2), and that of the equivalent inverse cipher (5.3.5).

ghost use Rattle.std.specs.Prelude.{◌≡◌, ◌≤◌, ◌<◌};
ghost use Rattle.std.specs.Int.{w32, to_be_bytes};
ghost use Rattle.aes_cbc.specs.Aes.{inverse_mixing, key_schedule, mixed_column, next_word, rotated_word, sub_word};
ghost use Rattle.aes_cbc.specs.State.{IsInverted};

use crate::cipher::substituted;
use crate::encrypting_tables::SBOX;
use crate::inverse_cipher::unmixed;

// The powers of x in the first byte of Rcon (5.2).
const ROUND_CONSTANTS: [u8; 10] = [0x01, 0x02, 0x04, 0x08, 0x10, 0x20, 0x40, 0x80, 0x1b, 0x36];

// SubWord of RotWord.
fn substituted_rotated(word: u32) -> u32
    ensures { result ≡ sub_word (rotated_word word) }
{
    let [a, b, c, d] = word.to_be_bytes();
    u32::from_be_bytes([
        SBOX[b as usize],
        SBOX[c as usize],
        SBOX[d as usize],
        SBOX[a as usize],
    ])
}

// The word at an index, from the words before it.
fn next_word(words: &[u32; 44], i: usize) -> u32
    requires behind { 4 ≤ i }
    requires within { i < 44 }
    ensures { result ≡ next_word words.now i }
{
    let last = words[i - 1];
    if i % 4 == 0 {
        let constant = u32::from_be_bytes([ROUND_CONSTANTS[i / 4 - 1], 0, 0, 0]);
        words[i - 4] ^ (substituted_rotated(last) ^ constant)
    } else {
        words[i - 4] ^ last
    }
}

/// The words of all rounds.
pub fn key_schedule(key: [u8; 16]) -> [u32; 44]
    ensures { result ≡ key_schedule key }
{
    let mut words = [0u32; 44];
    words[0] = u32::from_be_bytes([key[0], key[1], key[2], key[3]]);
    words[1] = u32::from_be_bytes([key[4], key[5], key[6], key[7]]);
    words[2] = u32::from_be_bytes([key[8], key[9], key[10], key[11]]);
    words[3] = u32::from_be_bytes([key[12], key[13], key[14], key[15]]);
    for i in 4..44 {
        let next = next_word(&words, i);
        words[i] = next;
    }
    words
}

// InvMixColumns of a word: the S-box undoes the inverse S-box of the tables.
fn unmixed_word(word: u32) -> u32
    ensures { to_be_bytes w32 result ≡ mixed_column inverse_mixing (to_be_bytes w32 word) }
{
    let boxed = substituted(word, word, word, word);
    unmixed(boxed, boxed, boxed, boxed)
}

/// The words of all rounds of the equivalent inverse cipher.
pub fn inverted_schedule(encrypting: &[u32; 44]) -> [u32; 44]
    ensures { IsInverted result encrypting.now }
{
    let mut words = *encrypting;
    for i in 4..40 {
        let next = unmixed_word(words[i]);
        words[i] = next;
    }
    words
}
