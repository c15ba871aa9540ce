// Numbers on a command line.
ghost use Rattle.std.specs.Prelude.{◌≡◌, ◌<◌, ℕ, MatchOption};
ghost use Rattle.command_words.specs.Numbers.{IsNumber, IsNoNumber};

use itoa::Buffer;

/// The number of 64 bits that the text spells in decimal digits, without a sign or a leading zero.
pub fn long_number(text: &str) -> Option<u64>
    ensures { MatchOption result (IsNoNumber 64 text.now) (λ number. IsNumber 64 number text.now) }
{
    match text.parse::<u64>() {
        Ok(number) => {
            let mut buffer = Buffer::new();
            if buffer.format(number) == text {
                Some(number)
            } else {
                None
            }
        }
        Err(_) => None,
    }
}

/// The same for 32 bits.
pub fn short_number(text: &str) -> Option<u32>
    ensures { MatchOption result (IsNoNumber 32 text.now) (λ number. IsNumber 32 number text.now) }
{
    let Some(number) = long_number(text) else {
        return None;
    };
    match u32::try_from(number) {
        Ok(short) => Some(short),
        Err(_) => None,
    }
}
