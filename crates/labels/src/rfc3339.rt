// RFC 3339 instant labels (RFC 3339, section 5.6): `YYYY-MM-DDTHH:MM:SS.mmmZ`, read with a small t or z too.

ghost use Rattle.std.specs.Prelude.{◌≡◌, ◌+◌, ◌*◌, ◌≤◌, ℕ, true, length, drop, IfOk};
ghost use Rattle.refusal.specs.Outcome.{outcome, and_then};
ghost use Rattle.refusal.specs.Written.{bytes_written, written_buffer};
ghost use Rattle.text.specs.Filled.{filled};
ghost use Rattle.labels.specs.Rfc3339.{label_length, decimals, label_text, fields_label, instant_label, read_answer};
ghost use Rattle.labels.specs.Digits.{has_small, fits_one};
ghost use Rattle.labels.specs.Words.{ClockValues, Thousandths};
ghost use Rattle.labels.specs.Parts.{HasRoom, NarrowFields, read_time, joined_values};

use crate::date::LabelDate;
use crate::digits::{COLON, DASH};
use crate::years::{FIRST_LABEL_YEAR, LAST_LABEL_YEAR};
use crate::{buffer, clock, date, digits};
use instant::Fields;
use instant::units::PER_DAY;
use refusal::Refusal;

// The letters, which are written as capitals and read as either; a small one is 32 more.
const T: u8 = b'T';

const Z: u8 = b'Z';

const TO_SMALL: u8 = 32;

// The shapes of `YYYY`, `YY-MM-DD`, `HH:MM:SS` and `.mmm`.
const YEAR: &[u8; 4] = b"0000";

const DATE: &[u8; 8] = b"00-00-00";

const CLOCK: &[u8; 8] = b"00:00:00";

const FRACTION: &[u8; 4] = b".000";

// How many decimals the seconds have, and how many bytes a label has.
const DECIMALS: usize = 3;

pub const LENGTH: usize = 21 + DECIMALS;

// The byte at which the time begins.
const TIME: usize = 10;

// Writes the label of an instant. 4 for an instant outside the range, then 1 for a year that has no label, then 7 for a buffer shorter
// than the label.
#[tactic(auto, using(crate::proofs::Instants::fields_narrow), unfolding(crate::specs::Rfc3339::instant_label))]
pub fn write_instant(instant: i64, out: &mut [u8]) -> Result<usize, Refusal>
    ensures answer { outcome result ≡ bytes_written (instant_label instant) out.old }
    ensures buffer { out.new ≡ written_buffer (instant_label instant) out.old }
{
    let fields = instant::split_instant(instant)?;
    write_fields(fields, out)
}

// Writes the label of an instant's fields. 1 for a year that has none, then 7.
#[tactic(auto, using(crate::proofs::Laws::label_length_lem, text::proofs::Filled::filled_front))]
fn write_fields(fields: Fields, out: &mut [u8]) -> Result<usize, Refusal>
    requires { NarrowFields fields }
    ensures answer { outcome result ≡ bytes_written (fields_label fields) out.old }
    ensures buffer { out.new ≡ written_buffer (fields_label fields) out.old }
{
    if numbers::outside(FIRST_LABEL_YEAR, LAST_LABEL_YEAR, fields.year) {
        return Err(Refusal::YearOutOfRange);
    }
    if out.len() < LENGTH {
        return Err(Refusal::BufferTooShort);
    }
    put_label(out, fields);
    Ok(LENGTH)
}

// Fills the front of a buffer with the label of fields that have room in it.
fn put_label(out: &mut [u8], fields: Fields)
    requires { (HasRoom 4 fields.year × NarrowFields fields) × (label_length ≤ length out.old) }
    ensures { out.new ≡ filled 0 (label_text fields) out.old }
{
    buffer::store(out, 0, digits::four(fields.year as u32), 4, DASH);
    let to_hour = digits::three_pairs(
        fields.month as u32,
        DASH,
        fields.day as u32,
        T,
        fields.hour as u32,
    );
    buffer::store(out, 5, to_hour, 8, COLON);
    clock::put(
        out,
        14,
        fields.minute as u32,
        fields.second as u32,
        fields.millisecond as u32,
    );
    buffer::store(out, LENGTH - 1, 0, 0, Z);
}

// The instant of a label. 8 for a label of another shape, then the refusals of its fields: 2, 3, 5.
#[tactic(auto, using(crate::proofs::Reading::wrong_length))]
pub fn read_instant(label: &[u8]) -> Result<i64, Refusal>
    ensures { outcome result ≡ read_answer label.now }
{
    if label.len() != LENGTH {
        return Err(Refusal::MalformedLabel);
    }
    let date = read_date(label)?;
    let (clock, fraction) = read_time(&label[TIME..])?;
    let days = date::day_count(date)?;
    let time = clock::time_of_day(clock, fraction)?;
    Ok(days * PER_DAY + time)
}

// The date of a label of the right length. 8 for another shape of it.
fn read_date(label: &[u8]) -> Result<LabelDate, Refusal>
    requires { length label.now ≡ label_length }
    ensures { and_then (outcome result) (λ date. read_time (100 * date.century + date.year) date.month date.day (drop 10 label.now)) ≡ read_answer label.now }
{
    let date_text = digits::eight_bytes(label, 2);
    let (date, year) = digits::read_values(date_text, DATE, digits::four_bytes(label, 0), YEAR)?;
    Ok(LabelDate {
        century: digits::pair(year, 0) as u64,
        year: digits::pair(date, 0) as u64,
        month: digits::pair(date, 3) as u64,
        day: digits::pair(date, 6) as u64,
    })
}

// The values of `HH:MM:SS` and of `.mmm` in the rest of a label, `THH:MM:SS.mmmZ`. 8 for another shape.
fn read_time(rest: &[u8]) -> Result<(u64, u64), Refusal>
    requires { length rest.now ≡ 11 + decimals }
    ensures values { IfOk result (λ time. ClockValues time.0 × Thousandths time.1) }
    ensures told { (year month day : ℕ) → and_then (outcome result) (λ time. joined_values year month day time.0 time.1) ≡ read_time year month day rest.now }
{
    if !is_letter(T, rest[0]) || !is_letter(Z, rest[10 + DECIMALS]) {
        return Err(Refusal::MalformedLabel);
    }
    let clock_text = digits::eight_bytes(rest, 1);
    digits::read_values(clock_text, CLOCK, digits::four_bytes(rest, 9), FRACTION)
}

// Whether a byte is that letter, as a capital or small.
fn is_letter(letter: u8, byte: u8) -> bool
    requires { has_small letter ≡ true }
    ensures { result ≡ fits_one letter byte }
{
    byte == letter + TO_SMALL || byte == letter
}
