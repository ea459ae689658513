// Rows of the two labels, small letters too, and instants of years that have no label.

use super::show::{read_row, written_row};
use labels::rfc3339;
use labels::webvtt::write_position;
use std::io;
use std::io::Write;

pub fn run(out: &mut impl Write) -> io::Result<()> {
    written(out)?;
    read(out)?;
    positions(out)
}

fn written(out: &mut impl Write) -> io::Result<()> {
    for instant in [
        1683729000000i64,
        -1,
        -62167219200000,
        -62167219200001,
        253402300799999,
        253402300800000,
        -1071989683200001,
        947655244800000,
    ] {
        let mut buffer = [b'?'; rfc3339::LENGTH];
        instant_row(out, instant, ": label ", &mut buffer)?;
    }
    for instant in [0i64, 253402300800000, 947655244800000] {
        instant_row(out, instant, " in 23 bytes: label ", &mut [b'?'; 23])?;
    }
    Ok(())
}

fn instant_row(
    out: &mut impl Write,
    instant: i64,
    words: &str,
    buffer: &mut [u8],
) -> io::Result<()> {
    written_row(
        out,
        rfc3339::write_instant,
        "instant ",
        instant,
        words,
        buffer,
    )
}

fn read(out: &mut impl Write) -> io::Result<()> {
    for label in [
        "2023-05-10T14:30:00.000Z",
        "1969-12-31T23:59:59.999Z",
        "2016-12-31T23:59:60.000Z",
        "2023-13-99T99:99:99.999Z",
        "1900-02-29T24:00:00.000Z",
        "2023-05-10t14:30:00.000z",
        "2023-05-10T14:30:00.000z",
        "2023-05-10z14:30:00.000z",
        "2023-05-10t14:30:00.000t",
        "2023-05-10T14:30:00.00Z",
    ] {
        read_row(
            out,
            label,
            ": instant ",
            rfc3339::read_instant(label.as_bytes()),
        )?;
    }
    Ok(())
}

fn positions(out: &mut impl Write) -> io::Result<()> {
    for position in [0i64, 359999999999, 4287767296, -1, 360000000000] {
        position_row(out, position, ": ", &mut [b'?'; 16])?;
    }
    position_row(out, 4287767296, " in 13 bytes: ", &mut [b'?'; 13])
}

fn position_row(
    out: &mut impl Write,
    position: i64,
    words: &str,
    buffer: &mut [u8],
) -> io::Result<()> {
    written_row(out, write_position, "position ", position, words, buffer)
}
