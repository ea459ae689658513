// Numbers to try of each call, a row for each; what is printed is held to the file stdout. The starred rows and some others are theorems
// besides, in proofs/Table.antt.

#![tactic(auto)]

mod calendar_rows;
mod clock_rows;
mod constants_rows;
mod instant_rows;
mod label_rows;
mod show;
mod timing_rows;
mod week_rows;

use std::io;

fn main(rt: HostRuntime) -> io::Result<()> {
    let mut out = rt.stdout();
    calendar_rows::run(&mut out)?;
    week_rows::run(&mut out)?;
    instant_rows::run(&mut out)?;
    label_rows::run(&mut out)?;
    timing_rows::run(&mut out)?;
    constants_rows::run(&mut out)?;
    clock_rows::run(&mut out)
}
