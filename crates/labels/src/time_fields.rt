// The fields of a time that labels show, by products with 32 bits behind the point: each factor is 2^32 / d rounded up, so that the
// product of n holds n / d, and behind the point (n % d) / d with an error that is too small to reach the next number. What is behind
// the point follows from the factor's record. Each function stands by itself: one for all of them would take the factor and the bound of
// its error as parameters that its contract would have to relate.

ghost use Rattle.std.specs.Prelude.{◌≡◌, ◌+◌, ◌*◌, ◌/◌, ◌%◌, ◌<◌};

const ONE: u64 = 0x1_0000_0000;

// The hours of minutes, with a shift by 32: place 8 of the sheet of constants.
const ONE_BY_60: u64 = 71582789;

// The seconds of milliseconds, with a shift by 32: place 9 of the sheet of constants.
const ONE_BY_1000: u64 = 4294968;

// The hours of some minutes, and the minutes beyond them.
pub fn hours(minutes: u64) -> u64
    requires { minutes < 6000000 }
    ensures { result ≡ minutes / 60 }
{
    minutes * ONE_BY_60 / ONE
}

pub fn minute(minutes: u64) -> u64
    requires { minutes < 6000000 }
    ensures { result ≡ minutes % 60 }
{
    behind_hours(minutes) * 60 / ONE
}

fn behind_hours(minutes: u64) -> u64
    requires { minutes < 6000000 }
    ensures { 60 * result ≡ 4294967296 * (minutes % 60) + 44 * minutes }
{
    minutes * ONE_BY_60 % ONE
}

// The seconds of the milliseconds of a minute; the first two digits of the milliseconds beyond them, and the last one.
pub fn second(rest: u64) -> u64
    requires { rest < 60000 }
    ensures { result ≡ rest / 1000 }
{
    rest * ONE_BY_1000 / ONE
}

pub fn hundredths(rest: u64) -> u64
    requires { rest < 60000 }
    ensures { result ≡ rest % 1000 / 10 }
{
    behind_second(rest) * 100 / ONE
}

pub fn last_digit(rest: u64) -> u64
    requires { rest < 60000 }
    ensures { result ≡ rest % 1000 % 10 }
{
    behind_hundredths(rest) * 10 / ONE
}

fn behind_second(rest: u64) -> u64
    requires { rest < 60000 }
    ensures { 1000 * result ≡ 4294967296 * (rest % 1000) + 704 * rest }
{
    rest * ONE_BY_1000 % ONE
}

fn behind_hundredths(rest: u64) -> u64
    requires { rest < 60000 }
    ensures { 10 * result ≡ 4294967296 * (rest % 1000 % 10) + 704 * rest }
{
    behind_second(rest) * 100 - hundredths(rest) * ONE
}
