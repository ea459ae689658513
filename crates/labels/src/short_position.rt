// The label of a position below 100 hours, `HH:MM:SS.mmm`, two digits at a time.

ghost use Rattle.std.specs.Prelude.{◌≡◌, ◌<◌, ◌≤◌, length};
ghost use Rattle.refusal.specs.Outcome.{value};
ghost use Rattle.refusal.specs.Written.{bytes_written, written_buffer};
ghost use Rattle.refusal.specs.Outcome.{outcome};
ghost use Rattle.text.specs.Filled.{filled};
ghost use Rattle.labels.specs.Webvtt.{position_text};
ghost use Rattle.labels.specs.PositionPieces.{hundred_hours, short_text, decimals_text};

use crate::digits::{COLON, POINT, ZERO};
use crate::{time_fields, two_digits};
use refusal::Refusal;

const MS_PER_MINUTE: u64 = 60000;

// How many bytes the label has.
const LENGTH: usize = 12;

// Writes the label of n milliseconds. 7 for a buffer shorter than it.
pub fn write(n: u64, out: &mut [u8]) -> Result<usize, Refusal>
    requires { n < hundred_hours }
    ensures answer { outcome result ≡ bytes_written (value (position_text n)) out.old }
    ensures buffer { out.new ≡ written_buffer (value (position_text n)) out.old }
{
    if out.len() < LENGTH {
        return Err(Refusal::BufferTooShort);
    }
    put(out, n / MS_PER_MINUTE, n % MS_PER_MINUTE);
    Ok(LENGTH)
}

// Fills the front of a buffer with the label of some minutes and of the milliseconds beyond them.
#[tactic(auto, unfolding(text::specs::Filled::filled))]
fn put(out: &mut [u8], minutes: u64, rest: u64)
    requires { ((minutes < 6000) × (rest < 60000)) × (12 ≤ length out.old) }
    ensures { out.new ≡ filled 0 (short_text minutes rest) out.old }
{
    two_digits::put(out, 0, time_fields::hours(minutes));
    out[2] = COLON;
    two_digits::put(out, 3, time_fields::minute(minutes));
    out[5] = COLON;
    two_digits::put(out, 6, time_fields::second(rest));
    put_decimals(out, rest);
}

// Puts `.mmm` behind the seconds.
#[tactic(auto, unfolding(text::specs::Filled::filled))]
fn put_decimals(out: &mut [u8], rest: u64)
    requires { (rest < 60000) × (12 ≤ length out.old) }
    ensures { out.new ≡ filled 8 (decimals_text rest) out.old }
{
    out[8] = POINT;
    two_digits::put(out, 9, time_fields::hundredths(rest));
    out[11] = (ZERO + time_fields::last_digit(rest) as u32) as u8;
}
