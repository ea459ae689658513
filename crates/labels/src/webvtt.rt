// WebVTT position labels (W3C, WebVTT): hours, `:MM:SS.mmm`. Positions are in milliseconds. Read are timestamps with any number of
// zeros in front of the hours, or without hours, and cue timing lines without settings.

ghost use Rattle.std.specs.Prelude.{◌≡◌, ◌<◌, IfSome};
ghost use Rattle.refusal.specs.Outcome.{outcome};
ghost use Rattle.refusal.specs.Written.{bytes_written, written_buffer};
ghost use Rattle.labels.specs.Webvtt.{position_label};
ghost use Rattle.labels.specs.Timestamps.{position_answer};
ghost use Rattle.labels.specs.Cues.{cue_line_answer};
ghost use Rattle.labels.specs.Stamps.{cue_of_stamps};

use crate::timestamp::MS_PER_HUNDRED_HOURS;
use crate::{cue, long_position, short_position, timestamp};
use refusal::Refusal;

// The start and the end of a cue, in milliseconds.
#[derive(Clone, Copy, Debug, PartialEq, Eq)]
pub struct Cue {
    pub start: i64,
    pub end: i64,
}

const LAST_POSITION: i64 = 359999999999;

// The last position whose hours have two digits.
const LAST_SHORT: i64 = MS_PER_HUNDRED_HOURS as i64 - 1;

// Writes the label of a position. 6 for a position outside the range, then 7 for a buffer shorter than the label.
pub fn write_position(position: i64, out: &mut [u8]) -> Result<usize, Refusal>
    ensures answer { outcome result ≡ bytes_written (position_label position) out.old }
    ensures buffer { out.new ≡ written_buffer (position_label position) out.old }
{
    // Those with two digits of hours first.
    if !numbers::outside(0, LAST_SHORT, position) {
        return short_position::write(position as u64, out);
    }
    if numbers::outside(0, LAST_POSITION, position) {
        return Err(Refusal::PositionOutOfRange);
    }
    long_position::write(position as u64, out)
}

// The position of a timestamp. 13 for a text of a wrong shape, then 6 for a position above the limit.
#[tactic(auto, using(crate::proofs::StampNumbers::answer_refused))]
pub fn read_position(text: &[u8]) -> Result<i64, Refusal>
    ensures { outcome result ≡ position_answer text.now }
{
    let position = timestamp::read(text)?;
    if position > LAST_POSITION as u64 {
        return Err(Refusal::PositionOutOfRange);
    }
    Ok(position as i64)
}

// The start and the end of a cue timing line. 13 for a line of a wrong shape, then 6 for a position above the limit, then 13 for an end
// not later than its start.
pub fn read_cue(line: &[u8]) -> Result<Cue, Refusal>
    ensures { outcome result ≡ cue_line_answer line.now }
{
    // The two usual lines first, of timestamps of twelve bytes or of nine.
    for size in [12, 9] {
        if let Some((start, end)) = usual_positions(line, size) {
            return cue_of(start, end);
        }
    }
    read_any_cue(line)
}

// The positions of a line of two timestamps of that size with ` --> ` between them, if it is one.
fn usual_positions(line: &[u8], size: usize) -> Option<(u64, u64)>
    requires { size < 100 }
    ensures { IfSome result (λ positions. cue_of_stamps positions.0 positions.1 ≡ cue_line_answer line.now) }
{
    if line.len() != size + 5 + size || !cue::has_gap(line, size) {
        return None;
    }
    if let (Ok(start), Ok(end)) = (
        timestamp::read(&line[..size]),
        timestamp::read(&line[size + 5..]),
    ) {
        return Some((start, end));
    }
    None
}

// The same of any line.
fn read_any_cue(line: &[u8]) -> Result<Cue, Refusal>
    ensures { outcome result ≡ cue_line_answer line.now }
{
    let (first_end, second_at) = cue::cut(line)?;
    let start = timestamp::read_any(&line[..first_end])?;
    let end = timestamp::read_any(&line[second_at..])?;
    cue_of(start, end)
}

// The cue of the positions of two timestamps. 6 for one above the limit, then 13 for an end not later than its start.
fn cue_of(start: u64, end: u64) -> Result<Cue, Refusal>
    ensures { outcome result ≡ cue_of_stamps start end }
{
    if start > LAST_POSITION as u64 || end > LAST_POSITION as u64 {
        return Err(Refusal::PositionOutOfRange);
    }
    if start >= end {
        return Err(Refusal::MalformedTiming);
    }
    Ok(Cue {
        start: start as i64,
        end: end as i64,
    })
}
