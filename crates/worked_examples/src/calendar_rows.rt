// Rows of the calendar, years below zero, and the ends of its range.

use super::show::{Answer, date_numbers};
use calendar::Date;
use std::io;
use std::io::Write;

pub fn run(out: &mut impl Write) -> io::Result<()> {
    days(out)?;
    dates(out)?;
    shifts(out)
}

// Day counts: the date and the weekday.
fn days(out: &mut impl Write) -> io::Result<()> {
    for days in [
        -719528i64,
        -719469,
        -719468,
        -25509,
        -25508,
        -1,
        0,
        11016,
        19487,
        47540,
        47541,
        2932896,
        2932897,
        -719529,
        -12407288,
        -12407289,
        10968231,
        10968232,
        9223372036854775807,
    ] {
        let date = calendar::civil_from_days(days).map(date_numbers);
        let weekday = calendar::weekday_from_days(days);
        writeln!(
            out,
            "day {days}: {}, weekday {}",
            Answer(date),
            Answer(weekday)
        )?;
    }
    Ok(())
}

// Dates: the count, the day of the year, the length of the month and the leap flag.
fn dates(out: &mut impl Write) -> io::Result<()> {
    for (year, month, day) in [
        (0i64, 1i64, 1i64),
        (0, 2, 29),
        (1900, 2, 28),
        (1900, 2, 29),
        (1969, 12, 31),
        (2000, 2, 29),
        (2023, 13, 99),
        (9999, 12, 31),
        (10000, 1, 1),
        (-1, 12, 31),
        (-4, 2, 29),
        (-100, 2, 29),
        (-400, 2, 29),
        (-32000, 1, 1),
        (31999, 12, 31),
        (32000, 1, 1),
        (-32001, 0, 0),
    ] {
        date_row(out, Date { year, month, day })?;
    }
    Ok(())
}

fn date_row(out: &mut impl Write, date: Date) -> io::Result<()> {
    let count = Answer(calendar::days_from_civil(date));
    let day_of_year = Answer(calendar::day_of_year(date));
    let length = Answer(calendar::last_day_of_month(date.year, date.month));
    let leap = Answer(calendar::is_leap(date.year).map(yes_or_no));
    write!(out, "date {}: count {count}", date_numbers(date))?;
    writeln!(
        out,
        ", day of year {day_of_year}, month length {length}, leap {leap}"
    )
}

fn yes_or_no(flag: bool) -> &'static str {
    if flag { "yes" } else { "no" }
}

// Shifted dates: out of the range by one day, and by more than 64 bits can add.
fn shifts(out: &mut impl Write) -> io::Result<()> {
    for (year, month, day, days) in [
        (1970i64, 1i64, 1i64, -719528i64),
        (1970, 1, 1, -12407288),
        (1970, 1, 1, -12407289),
        (-32000, 1, 1, 23375519),
        (-32000, 1, 1, 23375520),
        (31999, 12, 31, 9223372036854775807),
        (-32000, 1, 1, -9223372036854775808),
        (1900, 2, 29, 0),
    ] {
        shift_row(out, Date { year, month, day }, days)?;
    }
    Ok(())
}

fn shift_row(out: &mut impl Write, date: Date, days: i64) -> io::Result<()> {
    let shifted = Answer(calendar::add_days(date, days).map(date_numbers));
    writeln!(
        out,
        "date {} shifted by {days}: {shifted}",
        date_numbers(date)
    )
}
