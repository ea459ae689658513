// The length of a month by a match on its number: document 01, "Calendar rules", Month lengths. `length_by_bits` has the same contract, and
// both stay, since the theorem `both_ways` says that they are equal.

ghost use Rattle.std.specs.Prelude.{◌≡◌};
ghost use Rattle.refusal.specs.Outcome.{outcome};
ghost use Rattle.calendar.specs.Closed.{leap_day};
ghost use Rattle.calendar.specs.Checked.{length_answer};

use super::year;
use refusal::Refusal;

// The length of a month of the year y, which is counted from BASE_YEAR.
#[tactic(auto, using(crate::proofs::Lengths::match_rules))]
pub fn month_length(y: u64, month: i64) -> Result<i64, Refusal>
    ensures { outcome result ≡ length_answer (leap_day y) month }
{
    let length = common_length(month)?;
    let leap = year::leap_day(y);
    Ok(length + ((month == 2) as u64 * leap) as i64)
}

// The length of a month of a common year.
fn common_length(month: i64) -> Result<i64, Refusal>
    ensures { outcome result ≡ length_answer 0 month }
{
    match month {
        1 | 3 | 5 | 7 => Ok(31),
        4 | 6 | 9 | 11 => Ok(30),
        8 | 10 | 12 => Ok(31),
        2 => Ok(28),
        _ => Err(Refusal::MonthOutOfRange),
    }
}
