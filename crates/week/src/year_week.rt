// The year of a day, and which seven days of the year it is one of, from products: source document 000, section 7, for years that begin
// in January. Days and years are counted from the base.

ghost use Rattle.std.specs.Prelude.{◌≡◌, ◌+◌, ◌-◌, ◌/◌, ◌≤◌};
ghost use Rattle.week.specs.Closed.{to_day, first_day, InYear};

use calendar::products::{CENTURY, YEAR};

#[derive(Clone, Copy)]
pub struct YearWeek {
    pub year: u64,
    pub week: u64,
}

// The year of day n, and its seven days, of which the first seven of the year are 1. A year has 13357 / 256 weeks, a little less; that
// the week is right by what is left of the year's product follows from the record of the year, place 2 (`week_product`).
pub fn of_day(n: u64) -> YearWeek
    requires { n ≤ to_day + 3 }
    ensures { InYear n result.year × (result.week ≡ (n - first_day result.year) / 7 + 1) }
{
    let d = n + 1; // [1, to_day + 4]
    let c = (d * CENTURY) >> 42;
    let regular = d - c / 4 + c; // the day as if every fourth year were leap
    let p = regular * YEAR; // its year, with 33 bits behind the point
    YearWeek {
        year: p >> 33,
        week: ((p % (1 << 33) * 13357) >> 41) + 1,
    }
}
