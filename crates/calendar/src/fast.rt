// The date of a day with products in place of divisions: source document 000, sections 7 and 8, with multipliers for the whole range.
// The years begin on 1 March and are counted from BASE_YEAR.

ghost use Rattle.std.specs.Prelude.{◌≡◌, ◌+◌, ◌-◌, ◌*◌, ◌/◌, ◌%◌, ◌≤◌, ◌<◌};
ghost use Rattle.calendar.specs.Gregorian.{date_after};
ghost use Rattle.calendar.specs.Closed.{days_end, regular_day};

use super::base::{BASE_YEAR, FIRST_FROM_MARCH};
use super::products::{CENTURY, TO_JANUARY, YEAR};
use super::range_day::RangeDay;
use crate::Date;

// The date of a day.
pub fn date_of(day: RangeDay) -> Date
    ensures { result ≡ date_after day.number }
{
    let d = regular(day.number + FIRST_FROM_MARCH);
    let k = day_of_year(d);
    Date {
        year: january_year(d) as i64 + BASE_YEAR,
        month: day_table::month(k) as i64,
        day: day_table::day(k) as i64,
    }
}

// Day n as if every fourth year were leap, counted from 1.
pub fn regular(n: u64) -> u64
    requires { n < days_end }
    ensures { result ≡ regular_day n + 1 }
{
    let d = n + 1;
    let c = (d * CENTURY) >> 42;
    d - c / 4 + c
}

// The day of the year of a regular day, from 0: what is left of the year's product is a part of a year, which has 1461 quarters of a
// day. It follows from the record of the year, place 2 (`day_product`).
pub fn day_of_year(d: u64) -> u64
    requires { (1 ≤ d) × (d ≤ days_end) }
    ensures { result ≡ (4 * d - 1) % 1461 / 4 }
{
    (d * YEAR % (1 << 33) * 1461) >> 35
}

// The year of a regular day, if it were to begin in January.
pub fn january_year(d: u64) -> u64
    requires { d ≤ days_end }
    ensures { result ≡ (4 * d + 236) / 1461 }
{
    (d * YEAR + TO_JANUARY) >> 33
}
