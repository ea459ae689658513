// ISO 8601 week labels: `YYYY-Www-D` (document 02, request Seven).

ghost use Rattle.std.specs.Prelude.{◌≡◌, ◌+◌, ◌*◌, ◌^◌, ◌<◌, ◌≤◌, ◌∷◌, length};
ghost use Rattle.refusal.specs.Outcome.{outcome};
ghost use Rattle.refusal.specs.Written.{bytes_written, written_buffer};
ghost use Rattle.text.specs.Filled.{filled};
ghost use Rattle.text.specs.Decimal.{digits};
ghost use Rattle.labels.specs.Parts.{HasRoom};
ghost use Rattle.labels.specs.Rfc3339.{dash};
ghost use Rattle.labels.specs.IsoWeek.{letter_w, week_length, week_text, week_date_label, week_label, read_week_answer};

use crate::digits::DASH;
use crate::years::{FIRST_LABEL_YEAR, LAST_LABEL_YEAR};
use crate::{digits, two_digits};
use refusal::Refusal;
use week::WeekDate;

// The letter, which is a capital in every label.
const W: u8 = b'W';

// The shapes of `YYYY-Www` and `ww-D`, which have the week in common.
const TO_WEEK: &[u8; 8] = b"0000-W00";

const FROM_WEEK: &[u8; 4] = b"00-0";

// How many bytes a label has.
pub const LENGTH: usize = 10;

// Writes the week label of a day count. 4 for a count outside the range, then 1 for a week year that has no label, then 7 for a buffer
// shorter than the label.
#[tactic(auto, unfolding(crate::specs::IsoWeek::week_label))]
pub fn write_week(days: i64, out: &mut [u8]) -> Result<usize, Refusal>
    ensures answer { outcome result ≡ bytes_written (week_label days) out.old }
    ensures buffer { out.new ≡ written_buffer (week_label days) out.old }
{
    let date = week::week_from_days(days)?;
    write_date(date, out)
}

// Writes the label of a week date. 1 for a year that has none, then 7.
#[tactic(auto, using(crate::proofs::WeekLaws::week_label_length, text::proofs::Filled::filled_front))]
fn write_date(date: WeekDate, out: &mut [u8]) -> Result<usize, Refusal>
    requires { HasRoom 2 date.week × HasRoom 1 date.weekday }
    ensures answer { outcome result ≡ bytes_written (week_date_label date) out.old }
    ensures buffer { out.new ≡ written_buffer (week_date_label date) out.old }
{
    if numbers::outside(FIRST_LABEL_YEAR, LAST_LABEL_YEAR, date.year) {
        return Err(Refusal::YearOutOfRange);
    }
    if out.len() < LENGTH {
        return Err(Refusal::BufferTooShort);
    }
    put_label(out, date.year as u64, date.week as u64, date.weekday as u8);
    Ok(LENGTH)
}

// Fills the front of a buffer with the label of numbers that have room in it.
#[tactic(auto, unfolding(text::specs::Filled::filled, crate::specs::IsoWeek::week_text))]
fn put_label(out: &mut [u8], year: u64, week: u64, weekday: u8)
    requires { ((year < 10 ^ 4) × ((week < 10 ^ 2) × (weekday < 10 ^ 1))) × (week_length ≤ length out.old) }
    ensures { out.new ≡ filled 0 (week_text year week weekday) out.old }
{
    put_year(out, year / 100, year % 100);
    put_week(out, week);
    out[8] = DASH;
    out[9] = b'0' + weekday;
}

// The four digits of a year, of which the first two are the century.
#[tactic(auto, unfolding(text::specs::Filled::filled))]
fn put_year(out: &mut [u8], century: u64, year: u64)
    requires { ((century < 100) × (year < 100)) × (4 ≤ length out.old) }
    ensures { out.new ≡ filled 0 (digits (100 * century + year) 4) out.old }
{
    two_digits::put(out, 0, century);
    two_digits::put(out, 2, year);
}

// `-Www` behind the year.
#[tactic(auto, unfolding(text::specs::Filled::filled))]
fn put_week(out: &mut [u8], week: u64)
    requires { (week < 100) × (8 ≤ length out.old) }
    ensures { out.new ≡ filled 4 (dash ∷ letter_w ∷ digits week 2) out.old }
{
    out[4] = DASH;
    out[5] = W;
    two_digits::put(out, 6, week);
}

// The day count of a week label. 8 for a label of another shape, then 16 as its week date; all others lie in the range.
#[tactic(auto, using(crate::proofs::WeekTexts::wrong_week_length))]
pub fn read_week(label: &[u8]) -> Result<i64, Refusal>
    ensures { outcome result ≡ read_week_answer label.now }
{
    if label.len() != LENGTH {
        return Err(Refusal::MalformedLabel);
    }
    let to_week = digits::eight_bytes(label, 0);
    let (year, rest) = digits::read_values(
        to_week,
        TO_WEEK,
        digits::four_bytes(label, 6),
        FROM_WEEK,
    )?;
    week::days_from_week(WeekDate {
        year: (100 * digits::pair(year, 0) + digits::pair(year, 2)) as i64,
        week: digits::pair(rest, 0) as i64,
        weekday: (rest / 0x100_0000) as i64,
    })
}
