// The first and the last day of every month of every thirteenth year, from the first of the range to the last, to be held to those of
// an independent program (tools/dates.py): a line for each month, and for each of the two days the year, month and day of its count,
// the count, and the weekday. Thirteen is prime to 400, so every year of a cycle of 400 comes up.

#![tactic(auto)]

use calendar::Date;
use calendar::range::{FIRST_YEAR, LAST_YEAR};
use refusal::Refusal;
use std::io::Write;
use std::{fmt, io};

const STEP: u32 = 13;

// How many years are printed.
const YEARS: u32 = (LAST_YEAR - FIRST_YEAR) as u32 / STEP + 1;

fn main(rt: HostRuntime) -> io::Result<()> {
    let mut out = rt.stdout();
    for steps in 0..YEARS {
        for month in 1..=12 {
            line(&mut out, i64::from(steps * STEP) + FIRST_YEAR, month)?;
        }
    }
    Ok(())
}

fn line(out: &mut impl Write, year: i64, month: i64) -> io::Result<()> {
    match ends(year, month) {
        Ok((first, last)) => writeln!(out, "{first} {last}"),
        Err(_) => writeln!(out, "refused"),
    }
}

// The first and the last day of a month.
fn ends(year: i64, month: i64) -> Result<(Day, Day), Refusal> {
    let length = calendar::last_day_of_month(year, month)?;
    let first = Day::of(Date {
        year,
        month,
        day: 1,
    })?;
    let last = Day::of(Date {
        year,
        month,
        day: length,
    })?;
    Ok((first, last))
}

// A date that was counted and read back, its count and its weekday.
#[derive(Clone, Copy)]
struct Day {
    date: Date,
    count: i64,
    weekday: i64,
}

impl Day {
    fn of(date: Date) -> Result<Self, Refusal> {
        let count = calendar::days_from_civil(date)?;
        Ok(Day {
            date: calendar::civil_from_days(count)?,
            count,
            weekday: calendar::weekday_from_days(count)?,
        })
    }
}

impl fmt::Display for Day {
    fn fmt<W: fmt::Write>(&self, f: &mut fmt::Formatter<W>) -> fmt::Result {
        let Date { year, month, day } = self.date;
        write!(f, "{year} {month} {day} {} {}", self.count, self.weekday)
    }
}
