// WebVTT timestamps, `HH:MM:SS.mmm` with two digits of hours or more, or `MM:SS.mmm`. They are read from their end: the last twelve
// bytes, or nine, as two numbers, and the digits in front one by one.

ghost use Rattle.std.specs.Prelude.{◌≡◌, ◌^◌, ◌<◌, ◌++◌, length};
ghost use Rattle.refusal.specs.Outcome.{outcome};
ghost use Rattle.text.specs.Words.{bytes_of};
ghost use Rattle.labels.specs.Stamps.{stamp_of, one_more, leading};

use crate::digits;
use crate::digits::HIGHEST_BITS;
use refusal::Refusal;

// `00:00:00` and `.000`; and what the value of each byte can be raised by without setting its highest bit: 127 less 9 at a digit, less
// 5 at the tens of minutes and seconds, and less 0 at a mark.
const TO_SECOND: u64 = 0x3030_3a30_303a_3030;

const TO_SECOND_ROOM: u64 = 0x767a_7f76_7a7f_7676;

const FRACTION: u64 = 0x3030_302e;

const FRACTION_ROOM: u64 = 0x7676_767f;

// `00:` in front of minutes and seconds.
const NO_HOURS: u64 = 0x3a_3030;

pub const MS_PER_HOUR: u64 = 3600000;

pub const MS_PER_SECOND: u32 = 1000;

pub const SECONDS_PER_MINUTE: u32 = 60;

// What one hundred hours are worth, and how many of them there are at most.
pub const MS_PER_HUNDRED_HOURS: u64 = 100 * MS_PER_HOUR;

const LAST_HUNDRED: u64 = 999;

// The first position above the limit, which stands for all above it: it is a value and no refusal, since on a cue line the 13 of the second
// timestamp comes before the 6 of the first.
const ABOVE_LIMIT: u64 = 360000000000;

// The position of a timestamp, or ABOVE_LIMIT for all that are above the limit: the two usual lengths first. 13 for a text that is no
// timestamp.
pub fn read(text: &[u8]) -> Result<u64, Refusal>
    ensures { outcome result ≡ stamp_of text.now }
{
    if text.len() == 12 {
        return full(text);
    }
    if text.len() != 9 {
        return read_any(text);
    }
    short(text)
}

// The same of any length.
pub fn read_any(text: &[u8]) -> Result<u64, Refusal>
    ensures { outcome result ≡ stamp_of text.now }
{
    let n = text.len();
    if n < 12 {
        if n != 9 {
            return Err(Refusal::MalformedTiming);
        }
        return short(text);
    }
    let hundreds = leading_digits(&text[..n - 12])?;
    let last = full(&text[n - 12..])?;
    if hundreds > LAST_HUNDRED {
        return Ok(ABOVE_LIMIT);
    }
    Ok(hundreds * MS_PER_HUNDRED_HOURS + last)
}

// The same of twelve bytes.
fn full(text: &[u8]) -> Result<u64, Refusal>
    requires { length text.now ≡ 12 }
    ensures { outcome result ≡ stamp_of text.now }
{
    of_words(digits::eight_bytes(text, 0), digits::four_bytes(text, 8))
}

// The same of nine bytes, as if `00:` stood in front of them.
fn short(text: &[u8]) -> Result<u64, Refusal>
    requires { length text.now ≡ 9 }
    ensures { outcome result ≡ stamp_of text.now }
{
    let clock = digits::four_bytes(text, 0) * 0x100_0000
        + text[4] as u64 * 0x100_0000_0000_0000
        + NO_HOURS;
    of_words(clock, digits::four_bytes(text, 5))
}

// The same of twelve bytes as two numbers.
fn of_words(clock: u64, fraction: u64) -> Result<u64, Refusal>
    requires { fraction < 2 ^ 32 }
    ensures { outcome result ≡ stamp_of (bytes_of 8 clock ++ bytes_of 4 fraction) }
{
    if clock & HIGHEST_BITS | fraction & HIGHEST_BITS != 0 {
        return Err(Refusal::MalformedTiming);
    }
    let v = clock ^ TO_SECOND;
    let w = fraction ^ FRACTION;
    if v + TO_SECOND_ROOM & HIGHEST_BITS | w + FRACTION_ROOM & HIGHEST_BITS != 0 {
        return Err(Refusal::MalformedTiming);
    }
    let seconds = digits::pair(v, 3) * SECONDS_PER_MINUTE + digits::pair(v, 6);
    Ok(
        digits::pair(v, 0) as u64 * MS_PER_HOUR
            + (seconds * MS_PER_SECOND) as u64
            + digits::thousandths(w),
    )
}

// The number of a text of digits, as far as it takes to be above 999. 13 for other texts.
fn leading_digits(text: &[u8]) -> Result<u64, Refusal>
    ensures { outcome result ≡ leading text.now }
{
    let mut n: u64 = 0;
    let mut right = true;
    // All bytes are looked at, so that the compiler can take several in one turn.
    for byte in text {
        right &= byte.is_ascii_digit();
        n = one_more(n, *byte);
    }
    if right {
        Ok(n)
    } else {
        Err(Refusal::MalformedTiming)
    }
}

fn one_more(n: u64, byte: u8) -> u64
    requires { n < 2 ^ 14 }
    ensures { (result ≡ one_more n byte) × (result < 2 ^ 14) }
{
    if n > LAST_HUNDRED {
        n
    } else {
        n * 10 + (byte % 16) as u64
    }
}
