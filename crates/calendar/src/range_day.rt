// A day of the range, counted from its first.

ghost use Rattle.std.specs.Prelude.{◌≤◌};
ghost use Rattle.calendar.specs.Closed.{last_day};

use super::range::{FIRST_COUNT, LAST_COUNT};
use refusal::Refusal;

#[derive(Clone, Copy)]
pub struct RangeDay {
    pub number: u64,
    ghost in_range: { number ≤ last_day },
}

impl RangeDay {
    ghost use Rattle.std.specs.Prelude.{◌≡◌, false};
    ghost use Rattle.numbers.specs.Range.{outside, since};
    ghost use Rattle.calendar.specs.Range.{first_count, last_count};
    ghost use Rattle.calendar.specs.Checked.{range_day_outcome, range_day_answer};

    // The day of a count, or refusal 4.
    #[tactic(auto, unfolding(crate::specs::Checked::range_day_answer))]
    pub fn of_count(days: i64) -> Result<Self, Refusal>
        ensures { range_day_outcome result ≡ range_day_answer days }
    {
        if numbers::outside(FIRST_COUNT, LAST_COUNT, days) {
            return Err(Refusal::OutOfRange);
        }
        Ok(RangeDay::of_tested_count(days))
    }

    // The day of a count that was found in the range.
    pub fn of_tested_count(days: i64) -> Self
        requires { outside first_count last_count days ≡ false }
        ensures { result.number ≡ since first_count days }
    {
        RangeDay {
            number: (days - FIRST_COUNT) as u64,
        }
    }
}
