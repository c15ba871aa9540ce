// A state (FIPS 197, 3.4) as four words, one for each column, and how it is read and written.

ghost use Rattle.std.specs.Prelude.{◌≡◌, ◌+◌, ◌≤◌, ◌++◌, length, take, drop};
ghost use Rattle.std.specs.Int.{w32, to_be_bytes};
ghost use Rattle.aes_cbc.specs.Aes.{added};
ghost use Rattle.aes_cbc.specs.State.{bytes_in};

/// Four columns. The byte of row 0 is the highest of its word.
#[derive(Clone, Copy)]
pub struct State {
    pub first: u32,
    pub second: u32,
    pub third: u32,
    pub fourth: u32,
}

/// The four bytes from a position on, as a word.
#[inline(always)]
pub fn load_word(bytes: &[u8], at: usize) -> u32
    requires { at + 4 ≤ length bytes.now }
    ensures { to_be_bytes w32 result ≡ take 4 (drop at bytes.now) }
{
    u32::from_be_bytes([bytes[at], bytes[at + 1], bytes[at + 2], bytes[at + 3]])
}

/// The sixteen bytes from a position on.
#[inline(always)]
pub fn load(bytes: &[u8], at: usize) -> State
    requires { at + 16 ≤ length bytes.now }
    ensures { bytes_in result ≡ take 16 (drop at bytes.now) }
{
    State {
        first: load_word(bytes, at),
        second: load_word(bytes, at + 4),
        third: load_word(bytes, at + 8),
        fourth: load_word(bytes, at + 12),
    }
}

// Writes a word over the four bytes from a position on.
#[inline(always)]
fn store_word(bytes: &mut [u8], at: usize, word: u32)
    requires { at + 4 ≤ length bytes.old }
    ensures front { take (at + 4) bytes.new ≡ take at bytes.old ++ to_be_bytes w32 word }
    ensures behind { drop (at + 4) bytes.new ≡ drop (at + 4) bytes.old }
{
    bytes[at] = (word >> 24) as u8;
    bytes[at + 1] = ((word >> 16) % 256) as u8;
    bytes[at + 2] = ((word >> 8) % 256) as u8;
    bytes[at + 3] = (word % 256) as u8;
}

/// Writes a state over the sixteen bytes from a position on.
#[inline(always)]
pub fn store(bytes: &mut [u8], at: usize, state: State)
    requires { at + 16 ≤ length bytes.old }
    ensures front { take (at + 16) bytes.new ≡ take at bytes.old ++ bytes_in state }
    ensures behind { drop (at + 16) bytes.new ≡ drop (at + 16) bytes.old }
{
    store_word(bytes, at, state.first);
    store_word(bytes, at + 4, state.second);
    store_word(bytes, at + 8, state.third);
    store_word(bytes, at + 12, state.fourth);
}

/// The sum of two states, byte by byte.
#[inline(always)]
pub fn sum(a: State, b: State) -> State
    ensures { bytes_in result ≡ added (bytes_in a) (bytes_in b) }
{
    State {
        first: a.first ^ b.first,
        second: a.second ^ b.second,
        third: a.third ^ b.third,
        fourth: a.fourth ^ b.fourth,
    }
}
