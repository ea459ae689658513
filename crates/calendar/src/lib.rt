// The proleptic Gregorian calendar (document 01, "Calendar rules"). The names are Howard Hinnant's (source document 002).
//
//     days_from_civil(date)              day count       refusals 1, 2, 3
//     civil_from_days(days)              date            refusal 4
//     weekday_from_days(days)            1 to 7          refusal 4
//     is_leap(year)                      leap flag       refusal 1
//     last_day_of_month(year, month)     month length    refusals 1, 2
//     day_of_year(date)                  1 to 366        refusals 1, 2, 3
//     add_days(date, days)               shifted date    refusals 1, 2, 3, then 4
//
// civil_from_days goes by products in place of divisions. `plain`, `audit` and `month_table` have the same call by other ways: by ordinary
// divisions, by a table of the years of a cycle, and by products and a table of the days of a year. The four stay functions of their own,
// since the theorem `all_ways` is about each. The module `range` has the first and last year and count, `base` the year and the count
// that code counts from, `products` the multipliers.

#![tactic(auto)]

use base::{BASE_COUNT, FIRST_AFTER_MONDAY};
use checked_date::CheckedDate;
use length_by_bits::month_length;
use range::{FIRST_COUNT, LAST_COUNT};
use range_day::RangeDay;
use refusal::Refusal;

pub mod audit;
pub mod base;
mod checked_date;
mod convert;
mod day_test;
mod fast;
mod length_by_bits;
mod length_by_match;
mod month;
pub mod month_table;
pub mod plain;
pub mod products;
pub mod range;
mod range_day;
mod weekday;
mod year;

ghost use Rattle.std.specs.Prelude.{◌≡◌};
ghost use Rattle.refusal.specs.Outcome.{outcome};
ghost use Rattle.calendar.specs.Answers.{leap_answer, last_day_answer, days_answer, day_of_year_answer, civil_answer, weekday_answer, add_days_answer};

#[derive(Clone, Copy, Debug, PartialEq, Eq)]
pub struct Date {
    pub year: i64,
    pub month: i64,
    pub day: i64,
}

// The count of a date.
#[tactic(auto, using(crate::proofs::Dates::days_refuses))]
pub fn days_from_civil(date: Date) -> Result<i64, Refusal>
    ensures { outcome result ≡ days_answer date.year date.month date.day }
{
    let checked = CheckedDate::try_from(date)?;
    Ok(convert::days_since_base(checked) as i64 + BASE_COUNT)
}

// The date of a day count.
#[tactic(auto, using(crate::proofs::Counts::civil_rules))]
pub fn civil_from_days(days: i64) -> Result<Date, Refusal>
    ensures { outcome result ≡ civil_answer days }
{
    Ok(fast::date_of(RangeDay::of_count(days)?))
}

// The weekday of a day count: 1 Monday to 7 Sunday.
#[tactic(auto, using(crate::proofs::Counts::weekday_rules))]
pub fn weekday_from_days(days: i64) -> Result<i64, Refusal>
    ensures { outcome result ≡ weekday_answer days }
{
    let day = RangeDay::of_count(days)?;
    Ok(weekday::after_monday(FIRST_AFTER_MONDAY + day.number) as i64)
}

// Whether a year is leap.
#[tactic(auto, using(crate::proofs::Years::leap_rules))]
pub fn is_leap(year: i64) -> Result<bool, Refusal>
    ensures { outcome result ≡ leap_answer year }
{
    Ok(year::is_leap(year::years_from_base(year)?))
}

// The length of a month.
#[tactic(auto, using(crate::proofs::Lengths::last_day_rules))]
pub fn last_day_of_month(year: i64, month: i64) -> Result<i64, Refusal>
    ensures { outcome result ≡ last_day_answer year month }
{
    month_length(year::years_from_base(year)?, month)
}

// The day of the year of a date, from 1.
#[tactic(auto, using(crate::proofs::Dates::day_of_year_rules))]
pub fn day_of_year(date: Date) -> Result<i64, Refusal>
    ensures { outcome result ≡ day_of_year_answer date.year date.month date.day }
{
    let checked = CheckedDate::try_from(date)?;
    Ok((year::days_before_month(checked.year, checked.month) + checked.day) as i64)
}

// The date that lies `days` days after a date, or before it where `days` is below zero. What is asked of the shift is asked before the sum,
// which may have no i64.
#[tactic(auto, using(crate::proofs::Dates::add_refuses))]
pub fn add_days(date: Date, days: i64) -> Result<Date, Refusal>
    ensures { outcome result ≡ add_days_answer date.year date.month date.day days }
{
    let count = days_from_civil(date)?;
    if numbers::outside(FIRST_COUNT - count, LAST_COUNT - count, days) {
        return Err(Refusal::OutOfRange);
    }
    Ok(fast::date_of(RangeDay::of_tested_count(count + days)))
}
