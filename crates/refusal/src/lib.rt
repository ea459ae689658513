// The numbered refusals of the calls, and how an answer says which it is: `Result<T, Refusal>`, or `Result<T, RefusalAt<N>>` where
// some refusals hand back a place or a least n.
//
//     refusal.number()       its number, 1 to 17

#![tactic(auto)]

ghost use Rattle.std.specs.Prelude.{◌≡◌, Some};
ghost use Rattle.refusal.specs.Numbers.{refusal_number};
ghost use Rattle.refusal.specs.Printed.{refusal_text, refusal_at_text};
ghost use Rattle.refusal.specs.declared.RefusalAt.TheVariants.{Alone};

use std::error::Error;
use std::fmt;

#[derive(Clone, Copy, Debug, PartialEq, Eq)]
pub enum Refusal {
    // year or week year outside its range, or of a label outside those that have one
    YearOutOfRange = 1,
    // month outside 1..12
    MonthOutOfRange = 2,
    // day outside 1..length of that month
    DayOutOfRange = 3,
    // day count, instant, shifted date or week date outside the range
    OutOfRange = 4,
    // hour, minute, second or its fraction outside its limits
    TimeOutOfRange = 5,
    // position outside its range
    PositionOutOfRange = 6,
    // buffer shorter than the label, the sheet or the report
    BufferTooShort = 7,
    // label of another shape
    MalformedLabel = 8,
    // a constant, a search end or a claimed bound outside the allowed limits
    ConstantOutOfLimits = 9,
    // claim: a difference stands below the bound
    DifferenceBelowBound = 10,
    // claim: no difference at or below the bound
    NoDifferenceUpToBound = 11,
    // index lists of unequal length
    UnequalLengths = 12,
    // timestamp or cue line of a wrong shape, or a cue's end not later than its start
    MalformedTiming = 13,
    // value of the transport clock outside 0..2^33 - 1, or its position outside 0..2^53
    ClockOutOfRange = 14,
    // index instant smaller than the one before it
    OutOfOrder = 15,
    // week that its year does not have, or weekday outside 1..7
    WeekOutOfRange = 16,
    // bytes that are no sheet, a note and numbers that make none, or a record that is not there
    MalformedSheet = 17,
}

impl Refusal {
    // The number of a refusal, 1 to 17.
    pub fn number(self) -> u64
        ensures { result ≡ refusal_number self }
    {
        self as u64
    }
}

// The refusal's number.
impl fmt::Display for Refusal {
    ghost output = { λ refusal. Some (refusal_text refusal) };

    fn fmt<W: fmt::Write>(&self, f: &mut fmt::Formatter<W>) -> fmt::Result {
        write!(f, "{}", self.number())
    }
}

impl Error for Refusal {}

// A refusal, alone or with the number that it hands back: the place of an instant in a list, or the least n of a claim.
#[derive(Clone, Copy, Debug, PartialEq, Eq)]
pub enum RefusalAt<N> {
    Alone(Refusal),
    At(Refusal, N),
}

impl<N> From<Refusal> for RefusalAt<N> {
    ghost from_gives = { λ refusal made. made ≡ Alone refusal };

    fn from(refusal: Refusal) -> Self {
        RefusalAt::Alone(refusal)
    }
}

// The refusal's number, and behind `at` the number that it hands back.
impl<N: fmt::Display> fmt::Display for RefusalAt<N> {
    ghost output = { refusal_at_text N.output };

    fn fmt<W: fmt::Write>(&self, f: &mut fmt::Formatter<W>) -> fmt::Result {
        match self {
            RefusalAt::Alone(refusal) => write!(f, "{refusal}"),
            RefusalAt::At(refusal, n) => write!(f, "{refusal} at {n}"),
        }
    }
}

impl<N: fmt::Display + fmt::Debug + Drop> Error for RefusalAt<N> {}
