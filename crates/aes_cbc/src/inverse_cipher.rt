// The equivalent inverse cipher (FIPS 197, 5.3.5), which is InvCipher (5.3) with the round keys mixed
// beforehand, so that a round consists of look-ups, as in the cipher.

ghost use Rattle.std.specs.Prelude.{◌≡◌, ◌≤◌, ℕ, List};
ghost use Rattle.std.specs.Int.{w32, to_be_bytes};
ghost use Rattle.aes_cbc.specs.Aes.{added, inverse_cipher, inverse_mix_columns, inverse_mixing, inverse_shift_rows, inverse_sub_bytes, mixed_column, round_key};
ghost use Rattle.aes_cbc.specs.Field.{inverse_sbox};
ghost use Rattle.aes_cbc.specs.State.{IsInverted, across, bytes_in};

use crate::cipher::key_of_round;
use crate::decrypting_tables::{
    INVERSE_SBOX, UNMIXED_FIRST, UNMIXED_FOURTH, UNMIXED_SECOND, UNMIXED_THIRD,
};
use crate::state::{State, sum};

// The inverse S-box of one byte of each word, one from each row.
#[inline(always)]
fn restored(a: u32, b: u32, c: u32, d: u32) -> u32
    ensures { to_be_bytes w32 result ≡ across inverse_sbox a b c d }
{
    u32::from_be_bytes([
        INVERSE_SBOX[(a >> 24) as usize],
        INVERSE_SBOX[(b >> 16) as usize % 256],
        INVERSE_SBOX[(c >> 8) as usize % 256],
        INVERSE_SBOX[d as usize % 256],
    ])
}

/// The same, and InvMixColumns of the column that the four bytes are.
#[inline(always)]
pub fn unmixed(a: u32, b: u32, c: u32, d: u32) -> u32
    ensures { to_be_bytes w32 result ≡ mixed_column inverse_mixing (across inverse_sbox a b c d) }
{
    (UNMIXED_FIRST[(a >> 24) as usize] ^ UNMIXED_SECOND[(b >> 16) as usize % 256])
        ^ (UNMIXED_THIRD[(c >> 8) as usize % 256] ^ UNMIXED_FOURTH[d as usize % 256])
}

// One full round. Row r of column c comes from column c - r.
#[inline(always)]
fn inverse_round(words: &[u32; 44], n: usize, s: State) -> State
    requires { n ≤ 10 }
    ensures { bytes_in result
        ≡ added (inverse_mix_columns (inverse_sub_bytes (inverse_shift_rows (bytes_in s))))
        (round_key words.now n) }
{
    let unmixed = State {
        first: unmixed(s.first, s.fourth, s.third, s.second),
        second: unmixed(s.second, s.first, s.fourth, s.third),
        third: unmixed(s.third, s.second, s.first, s.fourth),
        fourth: unmixed(s.fourth, s.third, s.second, s.first),
    };
    sum(unmixed, key_of_round(words, n))
}

// The last round, which has no InvMixColumns.
#[inline(always)]
fn last_inverse_round(words: &[u32; 44], s: State) -> State
    ensures { bytes_in result
        ≡ added (inverse_sub_bytes (inverse_shift_rows (bytes_in s))) (round_key words.now 0) }
{
    let restored = State {
        first: restored(s.first, s.fourth, s.third, s.second),
        second: restored(s.second, s.first, s.fourth, s.third),
        third: restored(s.third, s.second, s.first, s.fourth),
        fourth: restored(s.fourth, s.third, s.second, s.first),
    };
    sum(restored, key_of_round(words, 0))
}

/// The inverse cipher. The words are the inverted schedule of the words with which the
/// state was enciphered.
#[inline(always)]
pub fn decipher(words: &[u32; 44], s: State) -> State
    ensures { (w : List ℕ) → IsInverted words.now w
        → bytes_in result ≡ inverse_cipher w (bytes_in s) }
{
    let s = sum(s, key_of_round(words, 10));
    let s = inverse_round(words, 9, s);
    let s = inverse_round(words, 8, s);
    let s = inverse_round(words, 7, s);
    let s = inverse_round(words, 6, s);
    let s = inverse_round(words, 5, s);
    let s = inverse_round(words, 4, s);
    let s = inverse_round(words, 3, s);
    let s = inverse_round(words, 2, s);
    let s = inverse_round(words, 1, s);
    last_inverse_round(words, s)
}
