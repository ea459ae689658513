// The allowed limits of the constants, of a search end and of a claimed bound, and the test of a number against its limits.

ghost use Rattle.constants.specs.Limits.{TestsNumber};

use refusal::Refusal;

pub const A_FIRST: u32 = 1;

pub const A_LAST: u32 = 1023;

pub const B_LAST: u32 = 1023;

pub const D_FIRST: u32 = 1;

pub const D_LAST: u32 = 1048575;

pub const M_LAST: u32 = 4294967295;

pub const C_LAST: u32 = 4294967295;

pub const K_LAST: u32 = 47;

pub const T_LAST: u32 = 255;
// the search end
pub const END_LAST: u32 = 4294967295;
// the claimed bound
pub const BOUND_LAST: u32 = 4294967294;

// n as a natural number, if it lies in first..last.
pub fn natural(first: u32, last: u32, n: i64) -> Result<u32, Refusal>
    ensures { TestsNumber first last n result }
{
    if numbers::outside(i64::from(first), i64::from(last), n) {
        return Err(Refusal::ConstantOutOfLimits);
    }
    Ok(n as u32)
}
