// Timestamps and cue lines read back: both sides of the limit, and what readers in wide use get wrong.

use super::show::Answer;
use labels::webvtt::{read_cue, read_position, write_position};
use std::io;
use std::io::Write;

pub fn run(out: &mut impl Write) -> io::Result<()> {
    for label in [
        "01:02.003",
        "00:01:02.003",
        "0000100:00:00.000",
        "99999:59:59.999",
        "100000:00:00.000",
        "18446744073709551616:00:00.000",
        "1:00:00.000",
        "00:60.000",
        "00:00.0000",
        "00:01,500",
        "01.5",
    ] {
        timestamp(out, label)?;
    }
    for line in [
        "00:01.000 --> 00:02.500",
        "00:59:59.999\t --> \t01:00:00.000",
        "00:01.000 --> 00:01.000",
        "00:01.000-->00:02.500",
        "00:01.000 -> 00:02.500",
        "00:01.000 --> 00:02.500 line:0",
        "00:01.000 --> 100000:00:00.000",
        "00:01.0000 --> 100000:00:00.000",
    ] {
        cue(out, line)?;
    }
    Ok(())
}

// A timestamp: its position, and the label that is written of that. The bytes that the writer leaves alone stay question marks.
fn timestamp(out: &mut impl Write, label: &str) -> io::Result<()> {
    let position = read_position(label.as_bytes());
    write!(out, "timestamp {label}: {}", Answer(position))?;
    if let Ok(position) = position {
        let mut again = [b'?'; 16];
        let written = Answer(write_position(position, &mut again));
        write!(out, ", written {written} ")?;
        out.write_all(&again)?;
    }
    writeln!(out)
}

fn cue(out: &mut impl Write, line: &str) -> io::Result<()> {
    write!(out, "cue {line}: ")?;
    match read_cue(line.as_bytes()) {
        Ok(cue) => writeln!(out, "{} to {}", cue.start, cue.end),
        Err(refusal) => writeln!(out, "refused {refusal}"),
    }
}
