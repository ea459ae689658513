// The day of a date in unsigned arithmetic: source document 000, section 6, algorithm 4, in the paper's names, with the century by a
// product and with the table of document 01 for the months. Years are counted from BASE_YEAR, which is a multiple of 400, and run to
// to_year.

ghost use Rattle.std.specs.Prelude.{◌≡◌, ◌≤◌, ◌+◌};
ghost use Rattle.calendar.specs.Closed.{cycle, last_day, day_number};

use super::checked_date::CheckedDate;
use super::products::HUNDREDTH;
use super::year;

// The day of a date, counted from 1 January of BASE_YEAR: algorithm 4. BASE_YEAR is leap, and its leap day, which y_m / 4 leaves out,
// makes up for the first day of a month being day 1.
pub fn days_since_base(date: CheckedDate) -> u64
    ensures { (result ≡ day_number date.year date.month.number date.day) × ((cycle ≤ result) × (result ≤ cycle + last_day)) }
{
    let y_m = date.year - (date.month.number <= 2) as u64; // [399, to_year], from March to February
    let c = (y_m * HUNDREDTH) >> 24; // y_m / 100
    365 * date.year + year::days_before(date.month) + date.day + (y_m / 4 - c + c / 4)
}
