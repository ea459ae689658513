// The least difference, by residues modulo d. At n = r + d*j the exact quotient is the one at r and a*j more, so each side
// of a difference, the device's quotient above the exact one or below it, sets in as soon as j periods close the gap of r.

ghost use Rattle.constants.specs.Trial.{DifferenceAt};
ghost use Rattle.constants.specs.Residues.{Narrow, IsFewest, IsFirst};

use crate::stairs;
use crate::trial::Trial;

// Which of the two lacks something for a difference: the line of the device's quotient, or the staircase of the exact one.
#[derive(Clone, Copy)]
enum Lacking {
    Line,
    Stairs,
}

// A side of the difference. Where the line lacks, the gap at the residue x is what need + power*((a*x + rest) / d) is above
// have + m*x; where the staircase lacks, the two products change places.
#[derive(Clone, Copy)]
struct Side {
    lacking: Lacking,
    a: u64,
    d: u64,
    m: u64,
    // 2^k
    power: u64,
    // b % d
    rest: u64,
    need: u64,
    have: u64,
    // what each period closes of a gap
    gain: u64,
    ghost narrow: { Narrow a d m power rest need have gain },
}

// The fewest periods that close a gap, where each closes `gain` of it; None if none do.
fn fewest_periods(gap: u64, gain: u64) -> Option<u64>
    ensures { IsFewest gap gain result }
{
    if gap == 0 {
        Some(0)
    } else if gain == 0 {
        None
    } else {
        Some(gap.div_ceil(gain))
    }
}

impl Side {
    ghost use Rattle.std.specs.Prelude.{◌-◌, ◌<◌, ◌≤◌, ◌^◌};
    ghost use Rattle.constants.specs.declared.search.Lacking.TheVariants.{Line, Stairs};
    ghost use Rattle.constants.specs.Stairs.{LeastValue};
    ghost use Rattle.constants.specs.Residues.{FirstOf, IsFirst};
    ghost use Rattle.constants.specs.Sides.{IsSide, gap, SomeGap, Closed};

    // The device's quotient above the exact one.
    fn above(trial: Trial) -> Side
        ensures { IsSide trial Line result }
    {
        let power = 1 << trial.k;
        Side {
            lacking: Lacking::Line,
            a: trial.a,
            d: trial.d,
            m: trial.m,
            power,
            rest: trial.b % trial.d,
            need: (trial.b / trial.d + trial.t + 1) * power,
            have: trial.c,
            gain: (trial.m * trial.d).saturating_sub(trial.a * power),
        }
    }

    // The device's quotient below the exact one.
    fn below(trial: Trial) -> Side
        ensures { IsSide trial Stairs result }
    {
        let power = 1 << trial.k;
        Side {
            lacking: Lacking::Stairs,
            a: trial.a,
            d: trial.d,
            m: trial.m,
            power,
            rest: trial.b % trial.d,
            need: trial.c + trial.t * power + 1,
            have: trial.b / trial.d * power,
            gain: (trial.a * power).saturating_sub(trial.m * trial.d),
        }
    }

    // The least gap of the residues below `end`, above `bound`; 0 if it is at most that.
    fn least_gap(&self, end: u64, bound: u64) -> u64
        requires some { 0 < end }
        requires residues { end ≤ self.now.d }
        requires small { bound < 2 ^ 60 }
        ensures { LeastValue (λ x. gap self.now x - bound) end result }
    {
        let lead = self.need.saturating_sub(self.have + bound);
        if lead == 0 {
            return 0;
        }
        match self.lacking {
            Lacking::Line => stairs::line_gap(
                end, self.d, self.a, self.rest, self.m, self.power, lead,
            ),
            Lacking::Stairs => stairs::stairs_gap(
                end, self.d, self.a, self.rest, self.m, self.power, lead,
            ),
        }
    }

    // The least residue below `end` with a gap of at most `bound`, where there is one. The bisection halves what is between, and counts
    // no index.
    fn first_within(&self, end: u64, bound: u64) -> u64
        requires residues { end ≤ self.now.d }
        requires small { bound < 2 ^ 60 }
        requires some { SomeGap self.now end bound }
        ensures { FirstOf (λ x. gap self.now x ≤ bound) end result }
    {
        let mut low: u64 = 0;
        let mut high = end;
        while low + 1 < high {
            let middle = low + (high - low) / 2;
            if self.least_gap(middle, bound) == 0 {
                high = middle;
            } else {
                low = middle;
            }
        }
        low
    }

    // The least n below `end` whose residue's gap the periods before n close.
    fn first_closed(&self, end: u32) -> Option<u32>
        ensures { IsFirst (Closed self.now) end result }
    {
        if end == 0 {
            return None;
        }
        let end = u64::from(end);
        let first = self.d.min(end);
        let periods = fewest_periods(self.least_gap(first, 0), self.gain)?;
        let before = self.d * periods.min(end);
        if end <= before {
            return None;
        }
        let n = before + self.first_within(first, self.gain * periods);
        if n < end { Some(n as u32) } else { None }
    }
}

// The least difference below `end`. In each period one side gains what the other loses.
pub fn least_difference(trial: Trial, end: u32) -> Option<u32>
    ensures { IsFirst (DifferenceAt trial) end result }
{
    let above = Side::above(trial).first_closed(end);
    Side::below(trial)
        .first_closed(above.unwrap_or(end))
        .or(above)
}
