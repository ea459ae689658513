// Week dates from counts and back, and their labels; both ends of the calendar's range and of the week years that have labels; and what
// is refused.

use super::show::{Answer, Numbers, read_row, written_row};
use labels::iso_week;
use std::io;
use std::io::Write;
use week::WeekDate;

pub fn run(out: &mut impl Write) -> io::Result<()> {
    dates(out)?;
    days(out)?;
    labels(out)
}

fn dates(out: &mut impl Write) -> io::Result<()> {
    for days in [
        19487i64, 18627, 18628, -719528, -719527, -719526, 2932896, 2932897, 2932898, 2932899,
        -12407288, -12407289, 10968231, 10968232,
    ] {
        let date = Answer(week::week_from_days(days).map(numbers));
        writeln!(out, "day {days}: week date {date}")?;
    }
    Ok(())
}

fn numbers(date: WeekDate) -> Numbers<3> {
    Numbers([date.year, date.week, date.weekday])
}

fn days(out: &mut impl Write) -> io::Result<()> {
    for (year, week, weekday) in [
        (-1i64, 52i64, 6i64),
        (-1, 52, 5),
        (-1, 53, 1),
        (9999, 52, 5),
        (9999, 52, 6),
        (9999, 52, 7),
        (9999, 53, 1),
        (10000, 1, 1),
        (-32001, 52, 6),
        (-32001, 52, 5),
        (-32001, 53, 1),
        (-32002, 1, 1),
        (31999, 52, 5),
        (31999, 52, 6),
        (32000, 1, 1),
        (2021, 53, 1),
        (2020, 53, 4),
        (2020, 0, 1),
        (2020, 1, 0),
        (2020, 1, 8),
    ] {
        let date = WeekDate {
            year,
            week,
            weekday,
        };
        let count = Answer(week::days_from_week(date));
        writeln!(out, "week date {}: count {count}", numbers(date))?;
    }
    Ok(())
}

fn labels(out: &mut impl Write) -> io::Result<()> {
    for days in [
        19487i64, 18627, 18628, -719527, -719526, 2932897, 2932898, 2932899, -12407289, 10968232,
    ] {
        written(out, days, ": label ", &mut [b'?'; iso_week::LENGTH])?;
    }
    for days in [19487i64, -719527, 10968232] {
        written(out, days, " in 9 bytes: label ", &mut [b'?'; 9])?;
    }
    for label in [
        "2023-W19-3",
        "2020-W53-4",
        "2020-W53-5",
        "2023-w19-3",
        "2023-W00-1",
        "2023-W01-0",
        "2023-W01-8",
        "2023-W01-9",
        "-001-W52-6",
        "9999-W52-6",
        "9999-W52-7",
        "9999-W53-1",
        "0000-W01-1",
        "2023-W1-3",
        "10000-W01-1",
    ] {
        read_row(out, label, ": day ", iso_week::read_week(label.as_bytes()))?;
    }
    Ok(())
}

fn written(out: &mut impl Write, days: i64, words: &str, buffer: &mut [u8]) -> io::Result<()> {
    written_row(out, iso_week::write_week, "day ", days, words, buffer)
}
