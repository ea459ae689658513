// The label of a position from 100 hours on, `HHH:MM:SS.mmm` with three to five digits of hours, and no branch that asks how many.

ghost use Rattle.std.specs.Prelude.{◌≡◌, ◌+◌, ◌<◌, ◌≤◌, ◌∷◌, length, unsigned_abs};
ghost use Rattle.refusal.specs.Outcome.{value};
ghost use Rattle.refusal.specs.Written.{bytes_written, written_buffer};
ghost use Rattle.refusal.specs.Outcome.{outcome};
ghost use Rattle.text.specs.Filled.{filled, Begins};
ghost use Rattle.labels.specs.Webvtt.{last_position, hour_digits, clock_of, position_text};
ghost use Rattle.labels.specs.PositionPieces.{hundred_hours};
ghost use Rattle.text.specs.Decimal.{digits};
ghost use Rattle.labels.specs.Clock.{colon};

use crate::digits::{COLON, ZERO};
use crate::timestamp::{MS_PER_HOUR, MS_PER_SECOND, SECONDS_PER_MINUTE};
use crate::{buffer, clock, digits};
use refusal::Refusal;

// Writes the label of n milliseconds. 7 for a buffer shorter than it.
pub fn write(n: u64, out: &mut [u8]) -> Result<usize, Refusal>
    requires { (hundred_hours ≤ n) × (n ≤ unsigned_abs last_position) }
    ensures answer { outcome result ≡ bytes_written (value (position_text n)) out.old }
    ensures buffer { out.new ≡ written_buffer (value (position_text n)) out.old }
{
    let hours = (n / MS_PER_HOUR) as u32;
    let count = hour_digits(hours);
    let length = count + 10;
    if out.len() < length {
        return Err(Refusal::BufferTooShort);
    }
    put_hours(out, hours, count);
    put_clock(out, count, n);
    Ok(length)
}

// How many digits the hours have.
fn hour_digits(hours: u32) -> usize
    requires { 100 ≤ hours }
    ensures { (result ≡ hour_digits hours) × (result ≤ 5) }
{
    3 + (hours >= 1000) as usize + (hours >= 10000) as usize
}

// Writes the digits of the hours: five of them as one number, from which those that are too many are shifted out. Bytes behind them and
// before byte 8 may change.
fn put_hours(out: &mut [u8], hours: u32, count: usize)
    requires { ((hours < 100000) × (count ≡ hour_digits hours)) × (8 ≤ length out.old) }
    ensures { Begins (digits hours count) 8 out.old out.new }
{
    let text = digits::four(hours % 10000) * 256 + (ZERO + hours / 10000) as u64;
    buffer::store(out, 0, text >> (8 * (5 - count)), 7, 0);
}

// Writes `:MM:SS.mmm` of a position from byte `at` of a buffer on.
fn put_clock(out: &mut [u8], at: usize, n: u64)
    requires { at + 10 ≤ length out.old }
    ensures { out.new ≡ filled at (colon ∷ clock_of n) out.old }
{
    buffer::store(out, at, 0, 0, COLON);
    let rest = (n % MS_PER_HOUR) as u32;
    let seconds = rest / MS_PER_SECOND;
    clock::put(
        out,
        at + 1,
        seconds / SECONDS_PER_MINUTE,
        seconds % SECONDS_PER_MINUTE,
        rest % MS_PER_SECOND,
    );
}
