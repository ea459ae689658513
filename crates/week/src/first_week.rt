// The first week of a year, the weeks that it has, and the days of these. Days and years are counted from the base.

ghost use Rattle.std.specs.Prelude.{◌≡◌, not, ◌+◌, ◌%◌, ◌≤◌, pos};
ghost use Rattle.numbers.specs.Range.{outside};
ghost use Rattle.week.specs.Closed.{to_year, to_day, first_day, first_monday, weeks, day_of};

use super::week_year::WeekYear;
use calendar::products::{EIGHTH, HUNDREDTH, SEVENTH};

// Whether a year has a week. It has week 53 if the Thursday of that comes before the next year.
#[tactic(auto, using(crate::proofs::Years::last_week, crate::proofs::Years::other_week))]
pub fn has_week(year: WeekYear, week: i64) -> bool
    ensures { result ≡ not (outside (pos 1) (pos (weeks year.number)) week) }
{
    if week == 53 {
        return first_monday(year) + 367 < first_day(year.number + 1);
    }
    !numbers::outside(1, 52, week)
}

// The day of a week date.
#[tactic(auto, unfolding(crate::specs::Closed::day_of))]
pub fn day(year: WeekYear, week: u64, weekday: u64) -> u64
    requires { ((1 ≤ week) × (week ≤ 53)) × ((1 ≤ weekday) × (weekday ≤ 7)) }
    ensures { (result ≡ day_of year.number week weekday) × (result ≤ to_day + 371) }
{
    first_monday(year) + 7 * (week - 1) + (weekday - 1)
}

// The Monday of a year's first week, that of 4 January.
#[tactic(auto, using(crate::proofs::Years::first_days), unfolding(crate::specs::Closed::first_week))]
fn first_monday(year: WeekYear) -> u64
    ensures { (result ≡ first_monday year.number) × (result ≤ to_day) }
{
    let n = first_day(year.number);
    n + 4 - after_monday(n + 3)
}

// The weekday of a day, 1 Monday to 7 Sunday. The calendar's own is private to it, since no public function may have a `requires`.
fn after_monday(n: u64) -> u64
    requires { n ≤ to_day + 4 }
    ensures { result ≡ n % 7 + 1 }
{
    (n * SEVENTH + EIGHTH) % (1 << 32) / EIGHTH
}

// The first day of a year.
#[tactic(auto, using(crate::proofs::Years::first_day_coded, crate::proofs::Years::first_day_le))]
fn first_day(year: u64) -> u64
    requires { year ≤ to_year + 1 }
    ensures { (result ≡ first_day year) × (result ≤ to_day + 1) }
{
    let c = (year * HUNDREDTH) >> 24;
    1461 * year / 4 - c + c / 4
}
