// Reads a sheet of claims from standard input to its end and prints the verdict of each record, a line each; `17` for what is no
// sheet. A failed read or write is told on standard error, and the program's exit status is then 1.

#![tactic(auto)]

ghost use Rattle.std.specs.Prelude.{◌≤◌, length};
ghost use Rattle.std.specs.Io.{ReadsAtMost};

use anyhow::Context;
use std::io;
use std::io::Read;

// One byte more than a sheet may have: an input that fills it is too long to be one.
const ROOM: usize = 65537;

fn main(rt: HostRuntime) -> anyhow::Result<()> {
    let mut sheet = [0u8; ROOM];
    let length = read_input(&mut rt.stdin(), &mut sheet).context("check_sheet: standard input")?;
    let mut lines = [0u8; sheet::REPORT_MOST];
    let Ok(count) = sheet::report(&sheet[..length], &mut lines) else {
        return Ok(());
    };
    rt.write_all(&lines[..count])
        .context("check_sheet: standard output")
}

// Reads the input to its end, in pieces as they come, and answers how much of the buffer it fills. What has no room is read over what
// is there, as the input is then too long to be a sheet.
fn read_input(input: &mut impl Read, buffer: &mut [u8]) -> io::Result<usize>
    ensures { ReadsAtMost result buffer.new }
{
    let mut filled = 0;
    // A loop must end, so the reads are counted; no input takes as many.
    for _ in 0..u64::MAX {
        let got = read_piece(input, buffer, next_place(filled, buffer.len()))?;
        if got == 0 {
            break;
        }
        filled = (filled + got).min(buffer.len());
    }
    Ok(filled)
}

// One read into the buffer from a place on.
fn read_piece(input: &mut impl Read, buffer: &mut [u8], from: usize) -> io::Result<usize>
    requires { from ≤ length buffer.old }
    ensures { ReadsAtMost result buffer.new }
{
    input.read(&mut buffer[from..])
}

// Where the next bytes go: behind those that are there, or to the front of a full buffer.
fn next_place(filled: usize, length: usize) -> usize
    ensures { result ≤ length }
{
    if filled < length { filled } else { 0 }
}
