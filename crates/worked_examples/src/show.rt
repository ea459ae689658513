// What rows have in common: answers and lists of numbers in words, and the rows of labels.

use calendar::Date;
use refusal::Refusal;
use std::io::Write;
use std::{fmt, io};

// An answer: its value, or its refusal.
#[derive(Drop)]
pub struct Answer<T, E>(pub Result<T, E>);

impl<T: fmt::Display, E: fmt::Display> fmt::Display for Answer<T, E> {
    fn fmt<W: fmt::Write>(&self, f: &mut fmt::Formatter<W>) -> fmt::Result {
        match &self.0 {
            Ok(value) => write!(f, "{value}"),
            Err(refusal) => write!(f, "refused {refusal}"),
        }
    }
}

// Numbers, with a blank between them.
#[derive(Clone, Copy)]
pub struct Numbers<const N: usize>(pub [i64; N]);

impl<const N: usize> fmt::Display for Numbers<N> {
    fn fmt<W: fmt::Write>(&self, f: &mut fmt::Formatter<W>) -> fmt::Result {
        let mut between = "";
        for n in &self.0 {
            write!(f, "{between}{n}")?;
            between = " ";
        }
        Ok(())
    }
}

// The year, the month and the day of a date.
pub fn date_numbers(date: Date) -> Numbers<3> {
    Numbers([date.year, date.month, date.day])
}

// The row of a label that was read.
pub fn read_row(
    out: &mut impl Write,
    label: &str,
    words: &str,
    answer: Result<i64, Refusal>,
) -> io::Result<()> {
    writeln!(out, "label {label}{words}{}", Answer(answer))
}

// The row of a label that is written: what it is of, the writer's answer and the buffer, in which the bytes that the writer leaves alone
// stay as they were.
pub fn written_row<F: Fn(i64, &mut [u8]) -> Result<usize, Refusal>>(
    out: &mut impl Write,
    write: F,
    kind: &str,
    n: i64,
    words: &str,
    buffer: &mut [u8],
) -> io::Result<()>
    requires { F.IsAlwaysCallable write }
{
    let answer = Answer(write(n, buffer));
    write!(out, "{kind}{n}{words}{answer} ")?;
    out.write_all(buffer)?;
    writeln!(out)
}
