// Constants on trial: where a device's multiply-and-shift quotient, (m*n + c) >> k, is more than t from the floor of (a*n + b) / d.
//
//     first_difference(constants, end)       the least such n below `end`, or None          refusal 9
//     check_bound(constants, bound)          accepted, if `bound` is the least              refusals 9, then 10 with the least n, or 11

#![tactic(auto)]

use refusal::{Refusal, RefusalAt};
use trial::Trial;

mod limits;
mod search;
mod stairs;
mod trial;

ghost use Rattle.std.specs.Prelude.{◌≡◌};
ghost use Rattle.constants.specs.Answers.{difference_answer, bound_answer, search_outcome, claim_outcome};

// The constants of a device as they are handed in: (a*n + b) / d is to be (m*n + c) >> k, within t.
#[derive(Clone, Copy, Debug, PartialEq, Eq)]
pub struct Constants {
    pub a: i64,
    pub b: i64,
    pub d: i64,
    pub m: i64,
    pub c: i64,
    pub k: i64,
    pub t: i64,
}

// The least n below `end` with a difference, or None.
pub fn first_difference(constants: Constants, end: i64) -> Result<Option<u64>, Refusal>
    ensures answer { search_outcome result ≡ difference_answer constants.a constants.b constants.d constants.m constants.c constants.k constants.t end }
{
    let trial = Trial::try_from(constants)?;
    let end = limits::natural(0, limits::END_LAST, end)?;
    Ok(search::least_difference(trial, end).map(u64::from))
}

// Whether `bound` is the least n with a difference. 10 hands back the least n, which is below `bound`; 11 says that no n up to `bound`
// has one.
pub fn check_bound(constants: Constants, bound: i64) -> Result<(), RefusalAt<u64>>
    ensures answer { claim_outcome result ≡ bound_answer constants.a constants.b constants.d constants.m constants.c constants.k constants.t bound }
{
    let trial = Trial::try_from(constants)?;
    let bound = limits::natural(0, limits::BOUND_LAST, bound)?;
    if let Some(n) = search::least_difference(trial, bound) {
        return Err(RefusalAt::At(Refusal::DifferenceBelowBound, u64::from(n)));
    }
    if trial.differs(bound) {
        Ok(())
    } else {
        Err(RefusalAt::Alone(Refusal::NoDifferenceUpToBound))
    }
}
