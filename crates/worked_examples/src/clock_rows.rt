// The transport clock: a wrap either way, a step of half a wrap, the ends of the range, and batches.

use super::show::Answer;
use std::io::Write;
use std::{fmt, io};
use transport::{Clock, Position};

pub fn run(out: &mut impl Write) -> io::Result<()> {
    for (clock, value) in [
        (None, 8589934500i64),
        (Some(8589934500i64), 2910),
        (Some(8589937502), 8589934590),
        (Some(85899345920), 1),
        (Some(0), 4294967295),
        (Some(0), 4294967296),
        (Some(8589934592), 4294967296),
        (Some(8589934592), 4294967295),
        (Some(9007199254740991), 0),
        (Some(9007199254740992), 0),
        (Some(9007199254740992), 1),
        (Some(9007199254740993), 0),
        (Some(-1), 0),
        (Some(0), 8589934591),
        (None, 8589934591),
        (None, 8589934592),
        (None, -1),
    ] {
        value_row(out, clock, value)?;
    }
    values_row(
        out,
        None,
        &[-1, 8589934500, 8589934592, 2910, 8589934590, 5913],
    )?;
    values_row(out, None, &[-1, 8589934592])?;
    values_row(out, Some(-1), &[0, 90, 180])?;
    values_row(out, Some(17179869184), &[8589934591, 90, 4294967386])
}

// A clock in words.
#[derive(Clone, Copy)]
struct InWords(Clock);

impl fmt::Display for InWords {
    fn fmt<W: fmt::Write>(&self, f: &mut fmt::Formatter<W>) -> fmt::Result {
        match self.0 {
            None => write!(f, "with nothing heard"),
            Some(position) => write!(f, "at {position}"),
        }
    }
}

// A position in ticks and in milliseconds.
#[derive(Clone, Copy)]
struct Units(Position);

impl fmt::Display for Units {
    fn fmt<W: fmt::Write>(&self, f: &mut fmt::Formatter<W>) -> fmt::Result {
        write!(f, "{} ticks, {} ms", self.0.ticks, self.0.milliseconds)
    }
}

// One value: its position, and the clock after it.
fn value_row(out: &mut impl Write, clock: Clock, value: i64) -> io::Result<()> {
    let followed = transport::follow(clock, value);
    let position = Answer(followed.answer.map(|p| Units(p)));
    let after = InWords(followed.clock);
    writeln!(
        out,
        "clock {}, value {value}: {position}, then {after}",
        InWords(clock)
    )
}

// A batch: how many values were passed over, and the clock after them.
fn values_row(out: &mut impl Write, clock: Clock, values: &[i64]) -> io::Result<()> {
    write!(out, "clock {}, values", InWords(clock))?;
    for value in values {
        write!(out, " {value}")?;
    }
    let batch = transport::follow_all(clock, values);
    writeln!(
        out,
        ": {} passed over, then {}",
        batch.skipped,
        InWords(batch.clock)
    )
}
