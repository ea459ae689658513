// The day of an instant and its time of day: quotient and remainder of a signed number, rounded toward minus infinity, also below
// zero (document 01, "Instants and the two labels"). Both go toward zero and are mended where the remainder is below zero: std's
// div_euclid and rem_euclid compile to a branch on the sign, and the day of instants at random takes twice the time with them.

ghost use Rattle.std.specs.Prelude.{◌≡◌, ◌<◌, cond, pos};
ghost use Rattle.std.specs.Int.Signed.{lt_z};
ghost use Rattle.instant.specs.Units.{per_day};
ghost use Rattle.instant.specs.Instant.{day_of, time_of};

use super::units::PER_DAY;

// The day count.
pub fn day(instant: i64) -> i64
    ensures { result ≡ day_of instant }
{
    instant / PER_DAY - borrowed(instant % PER_DAY)
}

// The time of day.
pub fn time(instant: i64) -> u64
    ensures { (result ≡ time_of instant) × (result < per_day) }
{
    let rest = instant % PER_DAY;
    (rest + PER_DAY * borrowed(rest)) as u64
}

// The days that a remainder borrows: 1 below zero, else 0.
fn borrowed(rest: i64) -> i64
    ensures { result ≡ cond (lt_z rest (pos 0)) (pos 1) (pos 0) }
{
    (rest < 0) as i64
}
