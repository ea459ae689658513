// Rows of instants and of the index, both ends of the range and the instants just outside it, and an index that falls, one that does
// not, and one with a fall and a bad instant.

use super::show::{Answer, Numbers};
use instant::Fields;
use std::io;
use std::io::Write;

pub fn run(out: &mut impl Write) -> io::Result<()> {
    moments(out)?;
    joins(out)?;
    indices(out)
}

// Instants: the day and the fields.
fn moments(out: &mut impl Write) -> io::Result<()> {
    for instant in [
        -86400000i64,
        -86400001,
        -1,
        0,
        1683729000000,
        -62167219200000,
        -62167219200001,
        253402300799999,
        253402300800000,
        -1071989683200000,
        -1071989683200001,
        947655244799999,
        947655244800000,
    ] {
        let day = Answer(instant::day_of_instant(instant));
        let fields = Answer(instant::split_instant(instant).map(fields_numbers));
        writeln!(out, "instant {instant}: day {day}, fields {fields}")?;
    }
    Ok(())
}

fn fields_numbers(f: Fields) -> Numbers<7> {
    Numbers([
        f.year,
        f.month,
        f.day,
        f.hour,
        f.minute,
        f.second,
        f.millisecond,
    ])
}

// Fields: their instant.
fn joins(out: &mut impl Write) -> io::Result<()> {
    for numbers in [
        [2023i64, 5, 10, 14, 30, 0, 0],
        [1969, 12, 31, 23, 59, 59, 999],
        [2016, 12, 31, 23, 59, 60, 0],
        [2016, 12, 32, 23, 59, 60, 0],
        [2016, 12, 31, 24, 0, 0, 0],
        [10000, 1, 1, 0, 0, 0, 0],
        [-1, 12, 31, 23, 59, 59, 999],
        [32000, 13, 1, 0, 0, 0, 0],
    ] {
        let [year, month, day, hour, minute, second, millisecond] = numbers;
        let instant = Answer(instant::join_instant(Fields {
            year,
            month,
            day,
            hour,
            minute,
            second,
            millisecond,
        }));
        writeln!(out, "fields {}: instant {instant}", Numbers(numbers))?;
    }
    Ok(())
}

fn indices(out: &mut impl Write) -> io::Result<()> {
    index(out, &[-1, 0, 86399999, 86400000], &mut [7; 4])?;
    index(out, &[-62167219200001, 253402300800000], &mut [7; 2])?;
    index(out, &[0, 947655244800000], &mut [7; 2])?;
    index(out, &[0, 86400000, 86399999], &mut [7; 3])?;
    index(out, &[5, 5], &mut [7; 2])?;
    index(out, &[1, 0, 947655244800000], &mut [7; 3])?;
    write!(out, "index of no instants: ")?;
    index_answer(out, &[], &mut [])?;
    writeln!(out)?;
    write!(out, "index of one instant with two days: ")?;
    index_answer(out, &[0], &mut [0; 2])?;
    writeln!(out)
}

// An index, its answer, and what its days are then; they begin as 7.
fn index(out: &mut impl Write, instants: &[i64], days: &mut [i32]) -> io::Result<()> {
    write!(out, "index")?;
    for instant in instants {
        write!(out, " {instant}")?;
    }
    write!(out, ": ")?;
    index_answer(out, instants, days)?;
    write!(out, ", days")?;
    for day in days {
        write!(out, " {day}")?;
    }
    writeln!(out)
}

fn index_answer(out: &mut impl Write, instants: &[i64], days: &mut [i32]) -> io::Result<()> {
    let written = instant::index_days(instants, days);
    if written.is_ok() {
        write!(out, "written ")?;
    }
    write!(out, "{}", Answer(written))
}
