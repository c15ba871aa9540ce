// Cipher (FIPS 197, 5.1). SubBytes, ShiftRows and MixColumns of one column are four look-ups.

ghost use Rattle.std.specs.Prelude.{◌≡◌, ◌≤◌};
ghost use Rattle.std.specs.Int.{w32, to_be_bytes};
ghost use Rattle.aes_cbc.specs.Aes.{added, cipher, mix_columns, mixed_column, mixing, round_key, shift_rows, sub_bytes};
ghost use Rattle.aes_cbc.specs.Field.{sbox};
ghost use Rattle.aes_cbc.specs.State.{across, bytes_in};

use crate::encrypting_tables::{MIXED_FIRST, MIXED_FOURTH, MIXED_SECOND, MIXED_THIRD, SBOX};
use crate::state::{State, sum};

/// The four words of a round's key.
#[inline(always)]
pub fn key_of_round(words: &[u32; 44], n: usize) -> State
    requires { n ≤ 10 }
    ensures { bytes_in result ≡ round_key words.now n }
{
    State {
        first: words[4 * n],
        second: words[4 * n + 1],
        third: words[4 * n + 2],
        fourth: words[4 * n + 3],
    }
}

/// The S-box of one byte of each word, one from each row.
#[inline(always)]
pub fn substituted(a: u32, b: u32, c: u32, d: u32) -> u32
    ensures { to_be_bytes w32 result ≡ across sbox a b c d }
{
    u32::from_be_bytes([
        SBOX[(a >> 24) as usize],
        SBOX[(b >> 16) as usize % 256],
        SBOX[(c >> 8) as usize % 256],
        SBOX[d as usize % 256],
    ])
}

// The same, and MixColumns of the column that the four bytes are.
#[inline(always)]
fn mixed(a: u32, b: u32, c: u32, d: u32) -> u32
    ensures { to_be_bytes w32 result ≡ mixed_column mixing (across sbox a b c d) }
{
    (MIXED_FIRST[(a >> 24) as usize] ^ MIXED_SECOND[(b >> 16) as usize % 256])
        ^ (MIXED_THIRD[(c >> 8) as usize % 256] ^ MIXED_FOURTH[d as usize % 256])
}

// One full round. Row r of column c comes from column c + r.
#[inline(always)]
fn round(words: &[u32; 44], n: usize, s: State) -> State
    requires { n ≤ 10 }
    ensures { bytes_in result
        ≡ added (mix_columns (shift_rows (sub_bytes (bytes_in s)))) (round_key words.now n) }
{
    let mixed = State {
        first: mixed(s.first, s.second, s.third, s.fourth),
        second: mixed(s.second, s.third, s.fourth, s.first),
        third: mixed(s.third, s.fourth, s.first, s.second),
        fourth: mixed(s.fourth, s.first, s.second, s.third),
    };
    sum(mixed, key_of_round(words, n))
}

// The last round, which has no MixColumns.
#[inline(always)]
fn last_round(words: &[u32; 44], s: State) -> State
    ensures { bytes_in result
        ≡ added (shift_rows (sub_bytes (bytes_in s))) (round_key words.now 10) }
{
    let shifted = State {
        first: substituted(s.first, s.second, s.third, s.fourth),
        second: substituted(s.second, s.third, s.fourth, s.first),
        third: substituted(s.third, s.fourth, s.first, s.second),
        fourth: substituted(s.fourth, s.first, s.second, s.third),
    };
    sum(shifted, key_of_round(words, 10))
}

/// The cipher. The rounds are written out one after the other, since a loop over them costs a third
/// of the speed.
#[inline(always)]
pub fn encipher(words: &[u32; 44], s: State) -> State
    ensures { bytes_in result ≡ cipher words.now (bytes_in s) }
{
    let s = sum(s, key_of_round(words, 0));
    let s = round(words, 1, s);
    let s = round(words, 2, s);
    let s = round(words, 3, s);
    let s = round(words, 4, s);
    let s = round(words, 5, s);
    let s = round(words, 6, s);
    let s = round(words, 7, s);
    let s = round(words, 8, s);
    let s = round(words, 9, s);
    last_round(words, s)
}
