// The date of a day count as `fast` has it, with the month and the day from a table. It is the fastest way where the compiler copies it
// into its caller, which it does of a function of this size where there is one caller only: the C interface is that one.

ghost use Rattle.std.specs.Prelude.{◌≡◌};
ghost use Rattle.calendar.specs.Gregorian.{date_after};
ghost use Rattle.refusal.specs.Outcome.{outcome};
ghost use Rattle.calendar.specs.Answers.{civil_answer};

use super::base::{BASE_YEAR, FIRST_FROM_MARCH};
use super::fast;
use super::range_day::RangeDay;
use crate::Date;
use refusal::Refusal;

// The date of a day count.
#[tactic(auto, using(crate::proofs::Counts::civil_rules))]
pub fn civil_from_days(days: i64) -> Result<Date, Refusal>
    ensures { outcome result ≡ civil_answer days }
{
    Ok(date_of(RangeDay::of_count(days)?))
}

// The date of a day.
fn date_of(day: RangeDay) -> Date
    ensures { result ≡ date_after day.number }
{
    let d = fast::regular(day.number + FIRST_FROM_MARCH);
    let entry = day_table::month_and_day(fast::day_of_year(d));
    Date {
        year: fast::january_year(d) as i64 + BASE_YEAR,
        month: (entry / 256) as i64,
        day: (entry % 256) as i64,
    }
}
