// Where the code counts from: years and days from one cycle of the calendar before the first year, so that nothing inside is below
// zero, and weekdays from a Monday.

use super::range::{FIRST_COUNT, FIRST_YEAR};

// The years after which the calendar repeats itself, and their days.
pub const CYCLE_YEARS: i64 = 400;

pub const CYCLE: u64 = 146097;

pub const BASE_YEAR: i64 = FIRST_YEAR - CYCLE_YEARS;

// The count of the first day of BASE_YEAR.
pub const BASE_COUNT: i64 = FIRST_COUNT - CYCLE as i64;

// The first day of the range, counted from 1 March of BASE_YEAR: January and February of a leap year have 60 days.
pub const FIRST_FROM_MARCH: u64 = CYCLE - 60;

// So many days, 0 to 6, the first day of the range comes after a Monday: day 0 is a Thursday, three days after one.
pub const FIRST_AFTER_MONDAY: u64 = ((FIRST_COUNT % 7 + 7 + 3) % 7) as u64;
