// The clock behind the hours, which both labels have, written; and with the hours, a time of day, read.

ghost use Rattle.std.specs.Prelude.{◌≡◌, ◌+◌, ◌<◌, ◌≤◌, length, pos};
ghost use Rattle.refusal.specs.Outcome.{outcome};
ghost use Rattle.instant.specs.Checked.{time_answer};
ghost use Rattle.labels.specs.Clock.{clock_text};
ghost use Rattle.text.specs.Filled.{filled};
ghost use Rattle.labels.specs.Words.{pair_of, number_of, ClockValues, Thousandths};

use crate::digits::{COLON, HIGHEST_BITS, POINT, ZERO};
use crate::{buffer, digits};
use instant::units::{PER_MINUTE, PER_SECOND};
use refusal::Refusal;

// What the tens of minutes and seconds, which are the first and the last byte of `MM:S`, can be raised by without setting a highest
// bit: 127 less 5.
const TENS_ROOM: u64 = 0x7a00_007a;

// Writes `MM:SS.mmm` from byte `at` of a buffer on.
pub fn put(out: &mut [u8], at: usize, minute: u32, second: u32, thousandths: u32)
    requires { ((minute < 100) × ((second < 100) × (thousandths < 1000))) × (at + 9 ≤ length out.old) }
    ensures { out.new ≡ filled at (clock_text 3 minute second thousandths) out.old }
{
    let text = digits::three_pairs(minute, COLON, second, POINT, thousandths / 10);
    buffer::store(out, at, text, 8, (ZERO + thousandths % 10) as u8);
}

// The time of day of the values of `HH:MM:SS` and of `.mmm`. 5 for one that no day has.
pub fn time_of_day(clock: u64, fraction: u64) -> Result<i64, Refusal>
    requires { ClockValues clock × Thousandths fraction }
    ensures { outcome result ≡ time_answer (pos (pair_of clock 0)) (pos (pair_of clock 3)) (pos (pair_of clock 6)) (pos (number_of fraction 4)) }
{
    // Of the pairs of digits, that of the hours is the lowest byte and that of the minutes the fourth: 60 times the first is added.
    let minutes = (digits::pairs(clock) & 0xff00_00ff) * 0x3c00_0001 / 0x100_0000 % 0x1_0000;
    if minutes > 1439 || clock / 0x100_0000 % 0x1_0000_0000 + TENS_ROOM & HIGHEST_BITS != 0 {
        return Err(Refusal::TimeOutOfRange);
    }
    let seconds = digits::pair(clock, 6) as u64;
    Ok((minutes * PER_MINUTE + seconds * PER_SECOND + digits::thousandths(fraction)) as i64)
}
