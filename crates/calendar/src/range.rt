// The range of the calendar: document 02, request Eight.

pub const FIRST_YEAR: i64 = -32000;

pub const LAST_YEAR: i64 = 31999;

// The counts of the first day of the first year and of the last day of the last.
pub const FIRST_COUNT: i64 = -12407288;

pub const LAST_COUNT: i64 = 10968231;
