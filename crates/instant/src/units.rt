// The units of an instant: document 01, "Instants and the two labels"; and its range: document 02, request Eight.

use calendar::range::{FIRST_COUNT, LAST_COUNT};

// An instant counts milliseconds.
pub const PER_SECOND: u64 = 1000;

pub const PER_MINUTE: u64 = 60 * PER_SECOND;

pub const PER_HOUR: u64 = 60 * PER_MINUTE;

pub const PER_DAY: i64 = (24 * PER_HOUR) as i64;

// The first and the last instant of the calendar's days.
pub const FIRST_INSTANT: i64 = FIRST_COUNT * PER_DAY;

pub const LAST_INSTANT: i64 = LAST_COUNT * PER_DAY + (PER_DAY - 1);
