// The clock's limits, and the way from a position to the next one, as natural numbers.

ghost use Rattle.std.specs.Prelude.{◌+◌, ◌≤◌, ◌<◌, ◌%◌, ◌^◌, ◌≡◌, None, Some, pos, length};
ghost use Rattle.refusal.specs.Outcome.{value, outcome, map_value};
ghost use Rattle.transport.specs.Wraps.{wrap, last_value, last_position, lead_to, position_at};
ghost use Rattle.transport.specs.Answers.{follow_answer};
ghost use Rattle.transport.specs.Batches.{number_within, going_on};

use super::{Batch, Clock, Position};
use refusal::Refusal;

// How many values the clock has, and half of that.
const WRAP: u64 = 1 << 33;

const HALF: u64 = 1 << 32;

const LAST_VALUE: i64 = (WRAP - 1) as i64;

const LAST_POSITION: i64 = 1 << 53;

// HALF more than the last position.
const LAST_AHEAD: u64 = LAST_POSITION as u64 + HALF;

// A value that the clock has.
#[derive(Clone, Copy)]
pub struct Value {
    pub number: u64,
    pub ghost in_range: { number < wrap },
}

impl Value {
    // A value that is handed in.
    pub fn heard(heard: i64) -> Result<Self, Refusal>
        ensures { map_value (λ heard. heard.number) (outcome result) ≡ number_within last_value heard }
    {
        let number = within(LAST_VALUE, heard)?;
        Ok(Value { number })
    }
}

// A position in the range, in ticks, and the clock's value there, which is kept beside it so that a step need not wait for the one
// before it.
#[derive(Clone, Copy)]
pub struct Reached {
    pub ticks: u64,
    pub value: u64,
    pub ghost in_range: { ticks ≤ 2 ^ 53 },
    pub ghost shown: { value ≡ ticks % wrap },
}

impl Reached {
    // The first value of all, taken as it is.
    pub fn first(heard: Value) -> Self
        ensures { value (position_at (pos result.ticks)) ≡ follow_answer None (pos heard.number) }
    {
        Reached {
            ticks: heard.number,
            value: heard.number,
        }
    }

    // A position that is handed in.
    pub fn at(position: i64) -> Result<Self, Refusal>
        ensures { map_value (λ at. at.ticks) (outcome result) ≡ number_within last_position position }
    {
        let ticks = within(LAST_POSITION, position)?;
        Ok(Reached {
            ticks,
            value: ticks % WRAP,
        })
    }

    // HALF more than the position that a value leads to.
    fn ahead(self, value: Value) -> u64
        ensures { result ≡ self.ticks + lead_to (pos self.ticks) (pos value.number) }
    {
        self.ticks + (value.number + (WRAP + HALF) - self.value) % WRAP
    }

    // The position that a value leads to.
    pub fn next(self, value: Value) -> Result<Self, Refusal>
        ensures { map_value (λ next. position_at (pos next.ticks)) (outcome result) ≡ follow_answer (Some (pos self.ticks)) (pos value.number) }
    {
        let ahead = self.ahead(value);
        if !(HALF..=LAST_AHEAD).contains(&ahead) {
            return Err(Refusal::ClockOutOfRange);
        }
        Ok(Reached {
            ticks: ahead - HALF,
            value: value.number,
        })
    }

    // The clock that has heard as much.
    pub fn clock(self) -> Clock
        ensures { result ≡ Some (pos self.ticks) }
    {
        Some(self.ticks as i64)
    }

    // In ticks, and in milliseconds, rounded down.
    pub fn position(self) -> Position
        ensures { result ≡ position_at (pos self.ticks) }
    {
        Position {
            ticks: self.ticks as i64,
            milliseconds: (self.ticks / 90) as i64,
        }
    }
}

// A number in 0..last, as a natural number.
fn within(last: i64, number: i64) -> Result<u64, Refusal>
    ensures { outcome result ≡ number_within last number }
{
    if numbers::outside(0, last, number) {
        return Err(Refusal::ClockOutOfRange);
    }
    Ok(number as u64)
}

// The batch from `start` on, with every value before it passed over.
pub fn run(from: Reached, values: &[i64], start: usize) -> Batch
    requires { start ≤ length values.now }
    ensures { result ≡ going_on (Some (pos from.ticks)) start start values.now }
{
    let mut reached = from;
    let mut skipped = start;
    // Each refused value is counted where it is found, and first, so that a value that is taken has a path of its own, which is faster.
    for &heard in &values[start..] {
        match Value::heard(heard) {
            Err(_) => skipped += 1,
            Ok(value) => match reached.next(value) {
                Err(_) => skipped += 1,
                Ok(next) => reached = next,
            },
        }
    }
    Batch {
        clock: reached.clock(),
        skipped,
    }
}
