// The date of a day count in unsigned arithmetic, with ordinary divisions: source document 000, section 6, algorithm 3, in the paper's
// names. Years are counted from BASE_YEAR, which is a multiple of 400, and run to to_year; the days of the range are counted from its
// first, and run to last_day.

ghost use Rattle.std.specs.Prelude.{◌≡◌, ◌≤◌};
ghost use Rattle.calendar.specs.Gregorian.{date_after};
ghost use Rattle.refusal.specs.Outcome.{outcome};
ghost use Rattle.calendar.specs.Answers.{civil_answer};
ghost use Rattle.calendar.specs.Closed.{from_march};

use super::base::{BASE_YEAR, CYCLE, FIRST_FROM_MARCH};
use super::range_day::RangeDay;
use crate::Date;
use refusal::Refusal;

const FOUR_CENTURIES: u32 = CYCLE as u32;

const FIRST: u32 = FIRST_FROM_MARCH as u32;

// Days from 1 March to the first of each month, March to the February after it.
const DAYS_FROM_MARCH: [u16; 12] = [0, 31, 61, 92, 122, 153, 184, 214, 245, 275, 306, 337];

// The date of a day count.
#[tactic(auto, using(crate::proofs::Counts::civil_rules))]
pub fn civil_from_days(days: i64) -> Result<Date, Refusal>
    ensures { outcome result ≡ civil_answer days }
{
    Ok(date_of(RangeDay::of_count(days)?))
}

// The date of a day: algorithm 3. Where the paper takes the day of the century, the leap days that three in four
// centuries lack are added instead, so that every fourth year is leap, and the year is found as in algorithm 1.
fn date_of(day: RangeDay) -> Date
    ensures { result ≡ date_after day.number }
{
    let n_0 = day.number as u32 + FIRST; // [146037, 146037 + last_day]
    let c = (4 * n_0 + 3) / FOUR_CENTURIES; // [3, to_year / 100]
    let regular = n_0 + c - c / 4; // [146040, 1461 * (to_year + 1) / 4]
    let y = (4 * regular + 3) / 1461; // [399, to_year], from March to February
    let n_y = regular - 1461 * y / 4; // [0, 365]
    let m = (5 * n_y + 461) / 153; // [3, 14]
    let j = (n_y >= 306) as u32; // [0, 1]: January and February are of the next year
    Date {
        year: (y + j) as i64 + BASE_YEAR,
        month: (m - 12 * j) as i64,
        day: (n_y + 1 - days_from_march(m)) as i64,
    }
}

// The days from 1 March to the first of month m, where 13 and 14 are the January and February after it.
fn days_from_march(m: u32) -> u32
    requires { (3 ≤ m) × (m ≤ 14) }
    ensures { result ≡ from_march m }
{
    let at = (m - 3) as usize;
    DAYS_FROM_MARCH[at] as u32
}
