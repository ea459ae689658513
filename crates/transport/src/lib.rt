// The 33-bit clock of a transport stream, followed past its wraps.
//
//     follow(clock, value)             position in ticks and milliseconds, and the clock there        refusal 14, the clock kept
//     follow_all(clock, values)        the clock after them, and how many were passed over            no refusal
//
// A clock that begins anew knows nothing of earlier wraps: it takes its first value as it is.

#![tactic(auto)]

use refusal::Refusal;
use steps::{Reached, Value};

mod steps;

ghost use Rattle.std.specs.Prelude.{◌≡◌, pos};
ghost use Rattle.refusal.specs.Outcome.{outcome, map_value};
ghost use Rattle.transport.specs.Wraps.{position_at};
ghost use Rattle.transport.specs.Answers.{follow_answer, clock_after, follow_all_answer};

// The unwrapped position, in ticks; none where nothing has been heard yet.
pub type Clock = Option<i64>;

#[derive(Clone, Copy, Debug, PartialEq, Eq)]
pub struct Position {
    pub ticks: i64,
    pub milliseconds: i64,
}

#[derive(Clone, Copy, Debug, PartialEq, Eq)]
pub struct Followed {
    pub clock: Clock,
    pub answer: Result<Position, Refusal>,
}

#[derive(Clone, Copy, Debug, PartialEq, Eq)]
pub struct Batch {
    pub clock: Clock,
    // how many values were passed over
    pub skipped: usize,
}

// The position that a value of the clock stands for.
pub fn follow(clock: Clock, value: i64) -> Followed
    ensures answer { outcome result.answer ≡ follow_answer clock value }
    ensures clock { result.clock ≡ clock_after clock value }
{
    match reached(clock, value) {
        Ok(reached) => Followed {
            clock: reached.clock(),
            answer: Ok(reached.position()),
        },
        Err(refusal) => Followed {
            clock,
            answer: Err(refusal),
        },
    }
}

// Where a value leads from a clock.
fn reached(clock: Clock, heard: i64) -> Result<Reached, Refusal>
    ensures { map_value (λ reached. position_at (pos reached.ticks)) (outcome result) ≡ follow_answer clock heard }
{
    // With `?` in its place the test compiles to one instruction more, which is slower.
    match Value::heard(heard) {
        Err(refusal) => Err(refusal),
        Ok(value) => match clock {
            None => Ok(Reached::first(value)),
            Some(position) => Reached::at(position)?.next(value),
        },
    }
}

// The values in order, each as `follow` takes it; those that it refuses are passed over.
pub fn follow_all(clock: Clock, values: &[i64]) -> Batch
    ensures { result ≡ follow_all_answer clock values.now }
{
    let none_taken = Batch {
        clock,
        skipped: values.len(),
    };
    match clock {
        None => {
            // The run hears the first value again, from its own position, which leads to itself.
            for (place, &heard) in values.iter().enumerate() {
                match Value::heard(heard) {
                    Err(_) => {}
                    Ok(first) => return steps::run(Reached::first(first), values, place),
                }
            }
            none_taken
        }
        Some(position) => match Reached::at(position) {
            Ok(from) => steps::run(from, values, 0),
            Err(_) => none_taken,
        },
    }
}
