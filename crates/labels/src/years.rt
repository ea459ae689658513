// The years that a label's four digits tell.

pub const FIRST_LABEL_YEAR: i64 = 0;

pub const LAST_LABEL_YEAR: i64 = 9999;
