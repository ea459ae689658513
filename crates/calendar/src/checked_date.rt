// A tested date, its year counted from BASE_YEAR.

ghost use Rattle.calendar.specs.Closed.{InRange};

use super::day_test::has_day;
use super::month::Month;
use super::year;
use crate::Date;
use refusal::Refusal;

#[derive(Clone, Copy)]
pub struct CheckedDate {
    pub year: u64,
    pub month: Month,
    pub day: u64,
    ghost in_range: { InRange year month.number day },
}

// The year, the month and the day are tested in this order.
impl TryFrom<Date> for CheckedDate {
    ghost use Rattle.calendar.specs.Checked.{ChecksDate};

    type Error = Refusal;

    ghost try_from_gives = { ChecksDate };

    #[tactic(auto, using(crate::proofs::Dates::refused_dates))]
    fn try_from(date: Date) -> Result<Self, Refusal> {
        let year = year::years_from_base(date.year)?;
        let month = Month::new(date.month)?;
        if !has_day(year, month, date.day) {
            return Err(Refusal::DayOutOfRange);
        }
        Ok(CheckedDate {
            year,
            month,
            day: date.day as u64,
        })
    }
}
