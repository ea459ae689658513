// The test of a year, the leap rule and the days before each month, of years that are counted from BASE_YEAR, a multiple of 400.

ghost use Rattle.std.specs.Prelude.{◌≡◌, ◌-◌, ◌≤◌, ◌%◌, get_or};
ghost use Rattle.refusal.specs.Outcome.{outcome};
ghost use Rattle.calendar.specs.Gregorian.{days_before};
ghost use Rattle.calendar.specs.Checked.{year_answer};
ghost use Rattle.calendar.specs.Closed.{leapℕ, leap_day, before};

use super::base::BASE_YEAR;
use super::month::Month;
use super::range::{FIRST_YEAR, LAST_YEAR};
use refusal::Refusal;

// Days before each month in a common year: document 01, "Calendar rules".
const DAYS_BEFORE: [u16; 12] = [0, 31, 59, 90, 120, 151, 181, 212, 243, 273, 304, 334];

// A year counted from BASE_YEAR, or refusal 1.
#[tactic(auto, unfolding(crate::specs::Checked::year_answer))]
pub fn years_from_base(year: i64) -> Result<u64, Refusal>
    ensures { outcome result ≡ year_answer year }
{
    if numbers::outside(FIRST_YEAR, LAST_YEAR, year) {
        return Err(Refusal::YearOutOfRange);
    }
    Ok((year - BASE_YEAR) as u64)
}

// Whether a year is leap: 4 divides it, or 16 where 25 divides it, which is what 4, 100 and 400 come to.
#[tactic(auto, using(crate::proofs::Leap::rest_flag))]
pub fn is_leap(y: u64) -> bool
    ensures { result ≡ leapℕ y }
{
    leap_rest(y) == 0
}

// The leap days of a year: 1 or 0.
#[tactic(auto, unfolding(crate::specs::Closed::leap_day))]
pub fn leap_day(y: u64) -> u64
    ensures { (result ≡ leap_day y) × (result ≤ 1) }
{
    is_leap(y) as u64
}

// What is left of the year after division by 4, or by 16 where 25 divides it.
fn leap_rest(y: u64) -> u64
    ensures by_16 { y % 25 ≡ 0 → result ≡ y % 16 }
    ensures by_4 { (y % 25 ≡ 0 → ⊥) → result ≡ y % 4 }
{
    if y % 25 == 0 { y % 16 } else { y % 4 }
}

// The days before a month in a common year.
pub fn days_before(month: Month) -> u64
    ensures { (result ≡ get_or days_before (month.number - 1) 0) × (result ≤ 334) }
{
    let at = (month.number - 1) as usize;
    DAYS_BEFORE[at] as u64
}

// The days before a month of the year y.
pub fn days_before_month(y: u64, month: Month) -> u64
    ensures { (result ≡ before (leap_day y) month.number) × (result ≤ 335) }
{
    days_before(month) + (month.number > 2) as u64 * leap_day(y)
}
