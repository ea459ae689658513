// Decimal digits, written and read some at a time as the bytes of one number, the first byte the lowest.

ghost use Rattle.std.specs.Prelude.{◌≡◌, ◌+◌, ◌/◌, ◌^◌, ◌<◌, ◌≤◌, ◌∷◌, ◌++◌, length};
ghost use Rattle.text.specs.Decimal.{digits};
ghost use Rattle.text.specs.Words.{word, part_of};
ghost use Rattle.refusal.specs.Outcome.{outcome};
ghost use Rattle.labels.specs.Words.{room_one, rooms, OneWord, read_values, pairs, pair_of, number_of, Thousandths};

use refusal::Refusal;

// The byte of the digit 0.
pub const ZERO: u32 = 48;

// The marks that more than one label has.
pub const DASH: u8 = b'-';

pub const COLON: u8 = b':';

pub const POINT: u8 = b'.';

// The hundreds of a number, with a shift by 19: place 6 of the sheet of constants.
const HUNDREDTH: u32 = 5243;

// The hundreds of a number of four digits. Of a quotient by 100 the compiler, which knows that much, makes a longer form of 16 bits.
fn hundreds(n: u32) -> u32
    requires { n < 10000 }
    ensures { result ≡ n / 100 }
{
    (n * HUNDREDTH) >> 19
}

// Four digits of a number. Of numbers below 100 that stand apart in one number, 103 / 1024 are the tens of each (place 7 of the
// sheet of constants), and 256 times the numbers less 2559 times the tens put each tens digit into the byte below its ones.
pub fn four(n: u32) -> u64
    requires { n < 10000 }
    ensures { result ≡ word (digits n 4) }
{
    let high = hundreds(n);
    let pairs = (n - 100 * high) * 0x1_0000 + high;
    let tens = pairs * 103 / 1024 & 0xf_000f;
    (256 * pairs - 2559 * tens + 0x3030_3030) as u64
}

// Three numbers of two digits, with a mark after the first and the second.
pub fn three_pairs(a: u32, first: u8, b: u32, second: u8, c: u32) -> u64
    requires { (a < 100) × ((b < 100) × (c < 100)) }
    ensures { result ≡ word (digits a 2 ++ first ∷ digits b 2 ++ second ∷ digits c 2) }
{
    let pairs = c as u64 * 0x1_0000_0000_0000 + b as u64 * 0x100_0000 + a as u64;
    let tens = pairs * 103 / 1024 & 0xf_0000_0f00_000f;
    let marks = second as u64 * 0x100_0000_0000 + first as u64 * 0x1_0000;
    256 * pairs - 2559 * tens + (marks + 0x3030_0030_3000_3030)
}

// The highest bit of each of eight bytes.
pub const HIGHEST_BITS: u64 = 0x8080_8080_8080_8080;

// The values of the digits of a text of eight bytes and of one of four, handed in as numbers, if each has its shape: a digit where the
// shape has a 0, and the same byte where it has another. 8 for other texts.
pub fn read_values(
    first: u64,
    shape: &[u8; 8],
    second: u64,
    other: &[u8; 4],
) -> Result<(u64, u64), Refusal>
    requires { OneWord shape.now first × OneWord other.now second }
    ensures { outcome result ≡ read_values shape.now first other.now second }
{
    let v = first ^ u64::from_le_bytes(*shape);
    let w = second ^ u32::from_le_bytes(*other) as u64;
    let raised = v.wrapping_add(u64::from_le_bytes(shape.map(room_one)));
    let other_raised = w.wrapping_add(u32::from_le_bytes(other.map(room_one)) as u64);
    // A byte of a wrong text is 128 or more, or is raised to it; where no byte is, no sum wraps.
    if (first | second | raised | other_raised) & HIGHEST_BITS != 0 {
        return Err(Refusal::MalformedLabel);
    }
    Ok((v, w))
}

// The numbers of two digits of some values, each in the byte of its tens.
pub fn pairs(values: u64) -> u64
    requires { values < 2 ^ 60 }
    ensures { result ≡ pairs values }
{
    values * 10 + values / 256
}

// One of them, from byte k of the values on.
pub fn pair(values: u64, k: usize) -> u32
    requires { (values < 2 ^ 60) × (k < 8) }
    ensures { result ≡ pair_of values k }
{
    ((pairs(values) >> (8 * k)) % 256) as u32
}

// The number of three digits behind a mark. Of the pairs, the first decimal stands in the lowest byte, and the other two as one in the
// third: 100 times the first is added.
pub fn thousandths(values: u64) -> u64
    requires { Thousandths values }
    ensures { (result ≡ number_of values 4) × (result < 1000) }
{
    (pairs(values) & 0xff_00ff) * 0x64_0001 / 0x1_0000 % 0x1_0000
}

// Eight bytes of a text as one number, and four, without a loop, which keeps them one load where the numbers are used further.
pub fn eight_bytes(text: &[u8], at: usize) -> u64
    requires { at + 8 ≤ length text.now }
    ensures { result ≡ word (part_of at 8 text.now) }
{
    four_bytes(text, at) + four_bytes(text, at + 4) * 0x1_0000_0000
}

pub fn four_bytes(text: &[u8], at: usize) -> u64
    requires { at + 4 ≤ length text.now }
    ensures { (result ≡ word (part_of at 4 text.now)) × (result < 2 ^ 32) }
{
    text::four_bytes(text[at], text[at + 1], text[at + 2], text[at + 3]) as u64
}

// What the value of a byte of a shape can be raised by without setting its highest bit: 127 less 9 at a digit, and less 0 at a mark.
fn room_one(shape: u8) -> u8
    ensures { (result ≡ room_one shape) × (result ≤ 127) }
{
    if shape == b'0' { 118 } else { 127 }
}
