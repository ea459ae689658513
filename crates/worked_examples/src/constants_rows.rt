// Rows of constants on trial, and claims about the first of them.

use super::show::Answer;
use constants::Constants;
use std::io;
use std::io::Write;

const END: i64 = 4294967295;

pub fn run(out: &mut impl Write) -> io::Result<()> {
    searches(out)?;
    claims(out)
}

// Searches: a, b, d, m, c, k, t and the end.
fn searches(out: &mut impl Write) -> io::Result<()> {
    for row in [
        [1i64, 0, 10, 26, 0, 8, 0, END],
        [1, 0, 10, 26, 0, 8, 1, END],
        [1, 0, 10, 25, 0, 8, 0, END],
        [5, 461, 153, 2141, 197913, 16, 0, END],
        [1, 0, 1461, 2939745, 0, 32, 0, END],
        [1, 0, 1461, 376287347, 0, 39, 0, END],
        [1, 0, 146097, 963315389, 0, 47, 0, END],
        [1, 0, 4, 1, 0, 2, 0, END],
        [1, 0, 4, 1, 0, 2, 0, 5],
        [1, 0, 1, 1, 1, 0, 0, END],
        [1, 0, 10, 26, 0, 8, 0, 69],
        [1023, 1023, 1048575, 4294967295, 4294967295, 47, 255, 0],
        [1, 0, 0, 26, 0, 8, 0, END],
        [1, 0, 10, 26, 0, 48, 0, END],
        [1, 0, 10, 26, 0, 8, 0, 4294967296],
    ] {
        let (constants, end) = read(row);
        write!(out, "search ")?;
        names(out, constants, end)?;
        match constants::first_difference(constants, end) {
            Ok(None) => {
                write!(out, "none")?;
                writeln!(out)?;
            }
            Ok(Some(n)) => writeln!(out, "{n}")?,
            Err(refusal) => writeln!(out, "refused {refusal}")?,
        }
    }
    Ok(())
}

// Claims: a, b, d, m, c, k, t and the bound.
fn claims(out: &mut impl Write) -> io::Result<()> {
    for bound in [69i64, 100, 68, 4294967295] {
        let (constants, bound) = read([1, 0, 10, 26, 0, 8, 0, bound]);
        write!(out, "claim ")?;
        names(out, constants, bound)?;
        let verdict = constants::check_bound(constants, bound).map(|()| "accepted");
        writeln!(out, "{}", Answer(verdict))?;
    }
    Ok(())
}

// A row's constants and its last number.
fn read(row: [i64; 8]) -> (Constants, i64) {
    let [a, b, d, m, c, k, t, last] = row;
    (
        Constants {
            a,
            b,
            d,
            m,
            c,
            k,
            t,
        },
        last,
    )
}

fn names(out: &mut impl Write, constants: Constants, last: i64) -> io::Result<()> {
    let Constants {
        a,
        b,
        d,
        m,
        c,
        k,
        t,
    } = constants;
    write!(out, "a={a} b={b} d={d} m={m} c={c} k={k} t={t} {last}: ")
}
