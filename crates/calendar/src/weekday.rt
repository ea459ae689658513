// Weekdays without a division by 7: a day is a seventh of 2^32, so that the lower 32 bits of a product tell the day of the week.

ghost use Rattle.std.specs.Prelude.{◌≡◌, ◌+◌, ◌^◌, ◌%◌, ◌<◌};

use super::products::{EIGHTH, SEVENTH};

// The weekday of the day that comes n days after a Monday: 1 Monday to 7 Sunday.
pub fn after_monday(n: u64) -> u64
    requires { n < 2 ^ 27 }
    ensures { result ≡ n % 7 + 1 }
{
    (n * SEVENTH + EIGHTH) % (1 << 32) / EIGHTH
}
