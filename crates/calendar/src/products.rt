// Multipliers of quotients that are made by a product and a shift. Each has a claim in the sheet of constants, which the checker
// accepts. Beside a multiplier stands the place of its record, whose last number is the least input at which the quotient is wrong.

// The century of a day that is counted from 1, with a shift by 42: place 1. A century has 146097 quarters of a day, and a day is 4.
pub const CENTURY: u64 = 120414423;

// The year of a day that is counted from 1, where every fourth year is leap, with a shift by 33: place 2. A year has 1461
// quarters of a day.
pub const YEAR: u64 = 23517959;

// What is added to a day's product to have the year from January of a day that is counted from 1 March, with the same shift: place 3.
pub const TO_JANUARY: u64 = 1393439081;

// The week of a day, with a shift by 32: place 4. The weekday follows from it, by what is left of the product (`by_sevenths`).
pub const SEVENTH: u64 = 613566757;

// An eighth of 2^32. What is left of a week's product is r sevenths of 2^32 and a little more, with r from 0 to 6, which are r eighths
// and less than one more: with one eighth added, r + 1 eighths, rounded down.
pub const EIGHTH: u64 = 1 << 29;

// The century of a year, with a shift by 24: place 5.
pub const HUNDREDTH: u64 = 167773;
