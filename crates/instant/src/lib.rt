// Instants, their fields and the recording index (document 01, "Instants and the two labels").
//
//     day_of_instant(instant)          day count         refusal 4
//     split_instant(instant)           fields            refusal 4
//     join_instant(fields)             instant           refusals 1, 2, 3, then 5
//     index_days(instants, days)       days written      refusals 12, 4, 15; the last two with the place
//
// The module `units` has the units of an instant and its range.

#![tactic(auto)]

use calendar::Date;
use refusal::{Refusal, RefusalAt};
use units::{FIRST_INSTANT, LAST_INSTANT, PER_DAY};

mod floored;
mod index;
mod time_of_day;
pub mod units;

ghost use Rattle.std.specs.Prelude.{◌≡◌};
ghost use Rattle.refusal.specs.Outcome.{outcome, outcome_at};
ghost use Rattle.instant.specs.Answers.{day_answer, split_answer, join_answer, index_days_answer, index_days};

#[derive(Clone, Copy, Debug, PartialEq, Eq)]
pub struct Fields {
    pub year: i64,
    pub month: i64,
    pub day: i64,
    pub hour: i64,
    pub minute: i64,
    pub second: i64,
    pub millisecond: i64,
}

impl Fields {
    // The date among the fields.
    fn date(self) -> Date
        ensures { (result.year ≡ self.year) × ((result.month ≡ self.month) × (result.day ≡ self.day)) }
    {
        Date {
            year: self.year,
            month: self.month,
            day: self.day,
        }
    }
}

// The day count of an instant.
#[tactic(auto, unfolding(crate::specs::Answers::day_answer))]
pub fn day_of_instant(instant: i64) -> Result<i64, Refusal>
    ensures { outcome result ≡ day_answer instant }
{
    if numbers::outside(FIRST_INSTANT, LAST_INSTANT, instant) {
        return Err(Refusal::OutOfRange);
    }
    Ok(floored::day(instant))
}

// The date and the time of day of an instant.
#[tactic(auto, using(crate::proofs::Ranges::splits), unfolding(crate::specs::Answers::split_answer))]
pub fn split_instant(instant: i64) -> Result<Fields, Refusal>
    ensures { outcome result ≡ split_answer instant }
{
    if numbers::outside(FIRST_INSTANT, LAST_INSTANT, instant) {
        return Err(Refusal::OutOfRange);
    }
    let date = calendar::civil_from_days(floored::day(instant))?;
    Ok(time_of_day::fields_at(date, floored::time(instant)))
}

// The instant of a date and a time of day.
#[tactic(auto, using(crate::proofs::Joined::join_refuses_date, crate::proofs::Joined::join_refuses_time))]
pub fn join_instant(fields: Fields) -> Result<i64, Refusal>
    ensures { outcome result ≡ join_answer fields.year fields.month fields.day fields.hour fields.minute fields.second fields.millisecond }
{
    let days = calendar::days_from_civil(fields.date())?;
    let time = time_of_day::check_time(fields)?;
    Ok(days * PER_DAY + time)
}

// Writes the day count of each instant, and answers how many; refused, it writes nothing.
#[tactic(auto, using(crate::proofs::Faults::found), unfolding(crate::specs::Answers::index_days_answer, crate::specs::Answers::index_days))]
pub fn index_days(instants: &[i64], days: &mut [i32]) -> Result<usize, RefusalAt<usize>>
    ensures answer { outcome_at result ≡ index_days_answer instants.now days.old }
    ensures days { days.new ≡ index_days instants.now days.old }
{
    let count = instants.len();
    if count != days.len() {
        return Err(RefusalAt::Alone(Refusal::UnequalLengths));
    }
    if index::is_faulty(instants) {
        if let Some(place) = index::first_bad(instants) {
            return Err(RefusalAt::At(Refusal::OutOfRange, place));
        }
        if let Some(place) = index::first_fall(instants) {
            return Err(RefusalAt::At(Refusal::OutOfOrder, place));
        }
    }
    index::fill_days(instants, days);
    Ok(count)
}
