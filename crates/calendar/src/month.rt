// A month by its number, 1 to 12.

ghost use Rattle.std.specs.Prelude.{◌≤◌};

use refusal::Refusal;

#[derive(Clone, Copy)]
pub struct Month {
    pub number: u64,
    ghost in_year: { (1 ≤ number) × (number ≤ 12) },
}

impl Month {
    ghost use Rattle.std.specs.Prelude.{◌≡◌};
    ghost use Rattle.calendar.specs.Checked.{month_outcome, month_answer};

    // The month of a number, or refusal 2.
    #[tactic(auto, unfolding(crate::specs::Checked::month_answer))]
    pub fn new(number: i64) -> Result<Self, Refusal>
        ensures { month_outcome result ≡ month_answer number }
    {
        if numbers::outside(1, 12, number) {
            return Err(Refusal::MonthOutOfRange);
        }
        Ok(Month {
            number: number as u64,
        })
    }
}
