// ISO 8601 week dates over the calendar (document 02, request Seven). A week runs from Monday to Sunday and belongs to the year of its
// Thursday; week 1 has the year's first.
//
//     week_from_days(days)       week date        refusal 4
//     days_from_week(date)       day count        refusals 1, 16, then 4

#![tactic(auto)]

use base::{BASE_COUNT, BASE_YEAR, FIRST_WEEK_YEAR, LAST_WEEK_YEAR};
use calendar::range::{FIRST_COUNT, LAST_COUNT};
use refusal::Refusal;
use week_year::WeekYear;

mod base;
mod first_week;
mod week_year;
mod year_week;

ghost use Rattle.std.specs.Prelude.{◌≡◌, false, ◌≤◌};
ghost use Rattle.numbers.specs.Range.{outside, since};
ghost use Rattle.refusal.specs.Outcome.{outcome, value};
ghost use Rattle.calendar.specs.Range.{first_count, last_count};
ghost use Rattle.calendar.specs.Answers.{weekday_answer};
ghost use Rattle.week.specs.Answers.{week_answer, week_days_answer};
ghost use Rattle.week.specs.Checked.{year_outcome, year_answer};
ghost use Rattle.week.specs.Closed.{base_count, to_day};

#[derive(Clone, Copy, Debug, PartialEq, Eq)]
pub struct WeekDate {
    pub year: i64,
    pub week: i64,
    pub weekday: i64,
}

// The week date of a day count.
#[tactic(auto, using(crate::proofs::Counts::week_refuses))]
pub fn week_from_days(days: i64) -> Result<WeekDate, Refusal>
    ensures { outcome result ≡ week_answer days }
{
    let weekday = calendar::weekday_from_days(days)?;
    Ok(week_date(days, weekday))
}

// The day count of a week date.
#[tactic(auto, using(crate::proofs::Answers::year_refuses))]
pub fn days_from_week(date: WeekDate) -> Result<i64, Refusal>
    ensures { outcome result ≡ week_days_answer date.year date.week date.weekday }
{
    let year = years_from_base(date.year)?;
    if !first_week::has_week(year, date.week) || numbers::outside(1, 7, date.weekday) {
        return Err(Refusal::WeekOutOfRange);
    }
    let days = first_week::day(year, date.week as u64, date.weekday as u64) as i64 + BASE_COUNT;
    if numbers::outside(FIRST_COUNT, LAST_COUNT, days) {
        return Err(Refusal::OutOfRange);
    }
    Ok(days)
}

// The week date of a count in the range, whose weekday is handed in.
fn week_date(days: i64, weekday: i64) -> WeekDate
    requires { value weekday ≡ weekday_answer days }
    ensures { value result ≡ week_answer days }
{
    let thursday = year_week::of_day(days_from_base(days) + 4 - weekday as u64);
    WeekDate {
        year: thursday.year as i64 + BASE_YEAR,
        week: thursday.week as i64,
        weekday,
    }
}

// A count in the range, from the base on.
fn days_from_base(days: i64) -> u64
    requires { outside first_count last_count days ≡ false }
    ensures { (result ≡ since base_count days) × (result ≤ to_day) }
{
    (days - BASE_COUNT) as u64
}

// A week year, or refusal 1.
#[tactic(auto, unfolding(crate::specs::Checked::year_answer))]
fn years_from_base(year: i64) -> Result<WeekYear, Refusal>
    ensures { year_outcome result ≡ year_answer year }
{
    if numbers::outside(FIRST_WEEK_YEAR, LAST_WEEK_YEAR, year) {
        return Err(Refusal::YearOutOfRange);
    }
    Ok(WeekYear {
        number: (year - BASE_YEAR) as u64,
    })
}
