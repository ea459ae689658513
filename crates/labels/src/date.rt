// The day count of a label's date. The digits tell the century and its year apart, so that no year is divided by 100.

ghost use Rattle.std.specs.Prelude.{◌≡◌, ◌+◌, ◌*◌, ◌<◌, ◌≤◌, pos};
ghost use Rattle.refusal.specs.Outcome.{outcome};
ghost use Rattle.calendar.specs.Closed.{leap_day};
ghost use Rattle.calendar.specs.Answers.{days_answer};
ghost use Rattle.labels.specs.Parts.{month_entry};

use calendar::base::CYCLE;
use refusal::Refusal;

// The days of four centuries, and of four years of one.
const FOUR_CENTURIES: u64 = CYCLE as u64;

const FOUR_YEARS: u64 = 1461;

// The number of 1970-01-01, where 0000-01-01 has 1.
const EPOCH: i64 = 719529;

// The entries of the months: a length, and 32 times the days of the year before it, one more of these in a common year; from March on
// that is the same in both.
const JANUARY: u64 = 32 * 1 + 31;

const LEAP_JANUARY: u64 = 32 * 0 + 31;

const FEBRUARY: u64 = 32 * 32 + 28;

const LEAP_FEBRUARY: u64 = 32 * 31 + 29;

const MARCH: u64 = 32 * 60 + 31;

const APRIL: u64 = 32 * 91 + 30;

const MAY: u64 = 32 * 121 + 31;

const JUNE: u64 = 32 * 152 + 30;

const JULY: u64 = 32 * 182 + 31;

const AUGUST: u64 = 32 * 213 + 31;

const SEPTEMBER: u64 = 32 * 244 + 30;

const OCTOBER: u64 = 32 * 274 + 31;

const NOVEMBER: u64 = 32 * 305 + 30;

const DECEMBER: u64 = 32 * 335 + 31;

// For each month the entry in a common year and in a leap year.
const ENTRIES: &[[u64; 2]; 12] = &[
    [JANUARY, LEAP_JANUARY],
    [FEBRUARY, LEAP_FEBRUARY],
    [MARCH, MARCH],
    [APRIL, APRIL],
    [MAY, MAY],
    [JUNE, JUNE],
    [JULY, JULY],
    [AUGUST, AUGUST],
    [SEPTEMBER, SEPTEMBER],
    [OCTOBER, OCTOBER],
    [NOVEMBER, NOVEMBER],
    [DECEMBER, DECEMBER],
];

// A date of four digits of the year, as two numbers of two, and two digits each of the month and the day.
#[derive(Clone, Copy)]
pub struct LabelDate {
    pub century: u64,
    pub year: u64,
    pub month: u64,
    pub day: u64,
    ghost two_digits: { (century < 100) × ((year < 100) × ((month < 100) × (day < 100))) },
}

// The day count of a date. 2 and 3 as the calendar, and never 1.
pub fn day_count(date: LabelDate) -> Result<i64, Refusal>
    ensures { outcome result ≡ days_answer (pos (100 * date.century + date.year)) (pos date.month) (pos date.day) }
{
    if date.month < 1 || date.month > 12 {
        return Err(Refusal::MonthOutOfRange);
    }
    let entry = month_entry(leap_day(date.century, date.year), date.month);
    if date.day < 1 || date.day > entry % 32 {
        return Err(Refusal::DayOutOfRange);
    }
    // The quarters, rounded down, are the days before the year but for one in a common year, which the entry has.
    let days = FOUR_CENTURIES * date.century / 4
        + FOUR_YEARS * date.year / 4
        + entry / 32
        + date.day;
    Ok(days as i64 - EPOCH)
}

// 1 in a leap year, else 0: 4 divides the year of the century, or the century where that year is 0.
fn leap_day(century: u64, year: u64) -> u64
    requires { (century < 100) × (year < 100) }
    ensures { (result ≡ leap_day (100 * century + year)) × (result ≤ 1) }
{
    let n = if year == 0 { century } else { year };
    (n % 4 == 0) as u64
}

// The entry of a month.
fn month_entry(leap: u64, month: u64) -> u64
    requires { (leap ≤ 1) × ((1 ≤ month) × (month ≤ 12)) }
    ensures { (result ≡ month_entry leap month) × (result < 12000) }
{
    ENTRIES[month as usize - 1][leap as usize]
}
