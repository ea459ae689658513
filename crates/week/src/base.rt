// The years of week dates, and where the code counts from: 1 January of the year after a multiple of 400, which is a Monday, so that of
// four years from there on the last is leap, but for those that 100 and not 400 divide.

use calendar::range::{FIRST_YEAR, LAST_YEAR};

// The first days of the range lie in a week of the year before it.
pub const FIRST_WEEK_YEAR: i64 = FIRST_YEAR - 1;

pub const LAST_WEEK_YEAR: i64 = LAST_YEAR;

// The base of the calendar, and one leap year more.
pub const BASE_YEAR: i64 = calendar::base::BASE_YEAR + 1;

pub const BASE_COUNT: i64 = calendar::base::BASE_COUNT + 366;
