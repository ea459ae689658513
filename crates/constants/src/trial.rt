// Constants on trial: natural numbers within the allowed limits, and the two quotients at an input.

ghost use Rattle.constants.specs.Limits.{Allowed};

use crate::Constants;
use crate::limits::{self, natural};
use refusal::Refusal;

// (a*n + b) / d is to be (m*n + c) >> k, within t.
#[derive(Clone, Copy)]
pub struct Trial {
    pub a: u64,
    pub b: u64,
    pub d: u64,
    pub m: u64,
    pub c: u64,
    pub k: u64,
    pub t: u64,
    ghost allowed: { Allowed a b d m c k t },
}

impl TryFrom<Constants> for Trial {
    ghost use Rattle.constants.specs.Trial.{TestsConstants};

    type Error = Refusal;

    ghost try_from_gives = { TestsConstants };

    fn try_from(given: Constants) -> Result<Trial, Refusal> {
        Ok(Trial {
            a: natural(limits::A_FIRST, limits::A_LAST, given.a)?.into(),
            b: natural(0, limits::B_LAST, given.b)?.into(),
            d: natural(limits::D_FIRST, limits::D_LAST, given.d)?.into(),
            m: natural(0, limits::M_LAST, given.m)?.into(),
            c: natural(0, limits::C_LAST, given.c)?.into(),
            k: natural(0, limits::K_LAST, given.k)?.into(),
            t: natural(0, limits::T_LAST, given.t)?.into(),
        })
    }
}

impl Trial {
    ghost use Rattle.std.specs.Prelude.{◌≡◌};
    ghost use Rattle.constants.specs.Difference.{differs};
    ghost use Rattle.constants.specs.Trial.{exact, device};

    // The floor of (a*n + b) / d.
    #[tactic(auto, unfolding(crate::specs::Difference::exact_quotient))]
    fn exact_quotient(self, n: u32) -> u64
        ensures { result ≡ exact self n }
    {
        (self.a * u64::from(n) + self.b) / self.d
    }

    // (m*n + c) shifted right by k.
    #[tactic(auto, unfolding(crate::specs::Difference::device_quotient))]
    fn device_quotient(self, n: u32) -> u64
        ensures { result ≡ device self n }
    {
        (self.m * u64::from(n) + self.c) >> self.k
    }

    // Whether the quotients at n are more than t apart.
    #[tactic(auto, unfolding(crate::specs::Difference::differs))]
    pub fn differs(self, n: u32) -> bool
        ensures { result ≡ differs self.t (exact self) (device self) n }
    {
        self.t < self.exact_quotient(n).abs_diff(self.device_quotient(n))
    }
}
