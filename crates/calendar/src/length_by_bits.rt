// The length of a month by the bits of its number: source document 001, "Last day of month". `length_by_match` has the same contract.

ghost use Rattle.std.specs.Prelude.{◌≡◌, ◌≤◌, cond};
ghost use Rattle.refusal.specs.Outcome.{outcome};
ghost use Rattle.calendar.specs.Closed.{leap_day, month_days};
ghost use Rattle.calendar.specs.Checked.{length_answer};

use super::month::Month;
use super::year;
use refusal::Refusal;

// The length of a month of the year y, which is counted from BASE_YEAR.
#[tactic(auto, using(crate::proofs::Lengths::bits_rules))]
pub fn month_length(y: u64, month: i64) -> Result<i64, Refusal>
    ensures { outcome result ≡ length_answer (leap_day y) month }
{
    let month = Month::new(month)?;
    Ok(days_of(year::is_leap(y), month) as i64)
}

// The days of a month, of a leap year or a common one.
fn days_of(leap: bool, month: Month) -> u64
    ensures { (result ≡ month_days (cond leap 1 0) month.number) × (result ≤ 31) }
{
    let m = month.number;
    if m == 2 {
        28 + leap as u64
    } else {
        30 | (m ^ (m >> 3))
    }
}
