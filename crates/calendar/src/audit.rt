// The date of a day count by a table of the days on which the years of a cycle begin, for audits at a desk. Each call fills the table
// from the leap rule, then looks the year up in it, and tries the months from December back.

ghost use Rattle.std.specs.Prelude.{◌≡◌, ◌+◌, ◌<◌, ◌≤◌};
ghost use Rattle.refusal.specs.Outcome.{outcome};
ghost use Rattle.calendar.specs.Gregorian.{date_after};
ghost use Rattle.calendar.specs.Answers.{civil_answer};
ghost use Rattle.calendar.specs.Closed.{cycle_years, cycle, leap_day, start, month_days, before};
ghost use Rattle.calendar.specs.YearStarts.{Starts};

use super::base::{BASE_YEAR, CYCLE, CYCLE_YEARS};
use super::month::Month;
use super::range_day::RangeDay;
use super::year;
use crate::Date;
use refusal::Refusal;

// The years of a cycle, as the table is indexed.
const YEARS: usize = CYCLE_YEARS as usize;

// The date of a day count.
#[tactic(auto, using(crate::proofs::Counts::civil_rules))]
pub fn civil_from_days(days: i64) -> Result<Date, Refusal>
    ensures { outcome result ≡ civil_answer days }
{
    let day = RangeDay::of_count(days)?;
    Ok(YearStarts::new().date_of(day))
}

// The first day of each year of a cycle and of the year after it.
#[derive(Drop)]
struct YearStarts {
    days: [u32; 401],
    ghost filled: { Starts days },
}

impl YearStarts {
    // The table, from the leap rule.
    fn new() -> Self {
        let mut days = [0u32; 401];
        for y in 0..YEARS {
            days[y + 1] = days[y] + 365 + year::leap_day(y as u64) as u32;
        }
        YearStarts { days }
    }

    // The date of a day.
    fn date_of(&self, day: RangeDay) -> Date
        ensures { result ≡ date_after day.number }
    {
        let n = day.number + CYCLE; // from 1 January of BASE_YEAR
        let r = n % CYCLE;
        let y = self.year_of(r as u32);
        let k = r - self.days[y] as u64; // the day of the year, from 0
        let month = month_of(y as u64, k);
        Date {
            year: (n / CYCLE * YEARS as u64 + y as u64) as i64 + BASE_YEAR,
            month: month.number as i64,
            day: (k - year::days_before_month(y as u64, month) + 1) as i64,
        }
    }

    // The year of a cycle that has the day r of it.
    fn year_of(&self, r: u32) -> usize
        requires { r < cycle }
        ensures { (result < cycle_years) × ((start result ≤ r) × (r < start (result + 1))) }
    {
        self.days.partition_point(|start| *start <= r) - 1
    }
}

// The month that has the day k of the year y, counted from 0.
fn month_of(y: u64, k: u64) -> Month
    requires { k < 365 + leap_day y }
    ensures { let m = result.number in (before (leap_day y) m ≤ k) × (k < before (leap_day y) m + month_days (leap_day y) m) }
{
    for number in (2..=12).rev() {
        let month = Month { number };
        if year::days_before_month(y, month) <= k {
            return month;
        }
    }
    Month { number: 1 }
}
