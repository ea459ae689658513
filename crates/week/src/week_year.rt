// A week year in the range, counted from the base.

ghost use Rattle.std.specs.Prelude.{◌≤◌};
ghost use Rattle.week.specs.Closed.{to_year};

#[derive(Clone, Copy)]
pub struct WeekYear {
    pub number: u64,
    ghost in_range: { number ≤ to_year },
}
