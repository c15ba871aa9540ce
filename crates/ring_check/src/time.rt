// A moment as text.
ghost use Rattle.std.specs.Prelude.{◌≡◌, ◌≤◌, ◌<◌, ◌++◌, pos, ◌≤ℤ◌, ◌<ℤ◌, OnOk, decimal};
ghost use Rattle.jiff.specs.Words.{epoch_day};
ghost use Rattle.ring_check.specs.Time.{day_after, two_digits, date_text, clock_text, time_text};

use itoa::Buffer;
use jiff::ToSpan;
use jiff::civil::{Date, date};
use kr_base::OutOfMemory;

/// The seconds of a day.
const DAY: u64 = 86_400;

/// The first moment that is shown as a number: 9999-01-01T00:00:00Z.
const LAST: u64 = 253_370_764_800;

/// The date that is so many days after 1970-01-01.
fn date_after(days: i32) -> Date
    requires from { pos 0 ≤ℤ days }
    requires to { days <ℤ pos 2932532 }
    ensures { epoch_day result ≡ days }
{
    match date(1970, 1, 1).checked_add((days as i64).days()) {
        Ok(date) => date,
        Err(_) => unreachable!(),
    }
}

/// Appends two decimal digits.
fn put_two(text: &mut Vec<u8>, number: u64) -> Result<(), OutOfMemory>
    requires { number < 100 }
    ensures { OnOk result (text.new.items ≡ text.old.items ++ two_digits number) }
{
    text.push(b'0' + (number / 10) as u8)?;
    text.push(b'0' + (number % 10) as u8)?;
    Ok(())
}

/// The year, the month and the day of the date that is so many days after 1970-01-01.
fn civil_of(days: u32) -> (u64, u64, u64)
    requires { days < 2932532 }
    ensures year { result.0 ≡ (day_after days).year }
    ensures month { result.1 ≡ (day_after days).month }
    ensures day { result.2 ≡ (day_after days).day }
    ensures short { (result.0 < 10000) × (result.1 < 100) × (result.2 < 100) }
{
    let date = date_after(days as i32);
    (date.year() as u64, date.month() as u64, date.day() as u64)
}

/// Appends the date that is so many days after 1970-01-01.
#[tactic(auto, unfolding(crate::specs::Time::date_text))]
fn put_date(text: &mut Vec<u8>, days: u32) -> Result<(), OutOfMemory>
    requires { days < 2932532 }
    ensures { OnOk result (text.new.items ≡ text.old.items ++ date_text (day_after days)) }
{
    let (year, month, day) = civil_of(days);
    put_two(text, year / 100)?;
    put_two(text, year % 100)?;
    text.push(b'-')?;
    put_two(text, month)?;
    text.push(b'-')?;
    put_two(text, day)
}

/// Appends the time of day that is so many seconds after midnight.
#[tactic(auto, unfolding(crate::specs::Time::clock_text))]
fn put_clock(text: &mut Vec<u8>, seconds: u64) -> Result<(), OutOfMemory>
    requires { seconds < 86400 }
    ensures { OnOk result (text.new.items ≡ text.old.items ++ clock_text seconds) }
{
    put_two(text, seconds / 3_600)?;
    text.push(b':')?;
    put_two(text, seconds % 3_600 / 60)?;
    text.push(b':')?;
    put_two(text, seconds % 60)
}

/// Appends a number in decimal digits.
pub fn put_number(text: &mut Vec<u8>, number: u64) -> Result<(), OutOfMemory>
    ensures { OnOk result (text.new.items ≡ text.old.items ++ decimal number) }
{
    let mut buffer = Buffer::new();
    text.extend_from_slice(buffer.format(number).as_bytes())
}

/// Appends the moment that is so many seconds after 1970-01-01T00:00:00Z. From the year 9999 on, these seconds
/// are appended instead.
#[tactic(auto, unfolding(crate::specs::Time::time_text))]
pub fn put_time(text: &mut Vec<u8>, seconds: u64) -> Result<(), OutOfMemory>
    ensures { OnOk result (text.new.items ≡ text.old.items ++ time_text seconds) }
{
    if seconds < LAST {
        put_date(text, (seconds / DAY) as u32)?;
        text.push(b'T')?;
        put_clock(text, seconds % DAY)?;
        text.push(b'Z')?;
        Ok(())
    } else {
        put_number(text, seconds)?;
        text.push(b's')?;
        Ok(())
    }
}
