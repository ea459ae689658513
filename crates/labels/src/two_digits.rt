// The two digits of each number below 100, for writers that put two bytes at a time.

ghost use Rattle.std.specs.Prelude.{◌≡◌, ◌+◌, ◌<◌, ◌≤◌, length, slice_index};
ghost use Rattle.text.specs.Decimal.{digits};
ghost use Rattle.text.specs.Filled.{filled};

// The digits of 00, 01, .. 99.
const PAIRS: [u8; 200] = *b"\
    0001020304050607080910111213141516171819\
    2021222324252627282930313233343536373839\
    4041424344454647484950515253545556575859\
    6061626364656667686970717273747576777879\
    8081828384858687888990919293949596979899";

// Stores the two digits of a number from byte `at` of a buffer on.
pub fn put(out: &mut [u8], at: usize, n: u64)
    requires { (n < 100) × (at + 2 ≤ length out.old) }
    ensures { out.new ≡ filled at (digits n 2) out.old }
{
    out[at] = digit(2 * n as usize);
    out[at + 1] = digit(2 * n as usize + 1);
}

// One of the digits of all these numbers.
fn digit(place: usize) -> u8
    requires { place < 200 }
    ensures { result ≡ slice_index PAIRS place }
{
    PAIRS[place]
}
