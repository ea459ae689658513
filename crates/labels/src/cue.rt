// Cue timing lines: a timestamp, one or more blanks, `-->`, one or more blanks, a timestamp.

ghost use Rattle.std.specs.Prelude.{◌≡◌, ◌+◌, ◌≤◌, length, take, drop, IfOk};
ghost use Rattle.refusal.specs.Outcome.{outcome, and_then};
ghost use Rattle.labels.specs.Digits.{fits};
ghost use Rattle.text.specs.Words.{part_of};
ghost use Rattle.labels.specs.CueLines.{is_blank, arrow};
ghost use Rattle.labels.specs.Cues.{cue_line_answer};
ghost use Rattle.labels.specs.Stamps.{stamp_of, cue_of_both};
ghost use Rattle.labels.specs.Timings.{run, usual_gap, EndsFirst};

use crate::digits;
use refusal::Refusal;

const SPACE: u8 = b' ';

const TAB: u8 = b'\t';

// The bytes of a line with the arrow, one blank each side of it, and two timestamps of nine bytes.
const SHORTEST_LINE: usize = 23;

// ` -->` as a number, the first byte the lowest.
const SPACE_AND_ARROW: u64 = 0x3e2d_2d20;

// Whether ` --> ` stands from byte `at` of a line on.
pub fn has_gap(line: &[u8], at: usize) -> bool
    requires { at + 5 ≤ length line.now }
    ensures { result ≡ fits usual_gap (part_of at 5 line.now) }
{
    digits::four_bytes(line, at) == SPACE_AND_ARROW && line[at + 4] == SPACE
}

// Where the first timestamp of a line ends and where the second begins, if they are there. 13 for a line without arrow or blanks.
pub fn cut(line: &[u8]) -> Result<(usize, usize), Refusal>
    ensures within { IfOk result (λ cut. (cut.0 ≤ length line.now) × (cut.1 ≤ length line.now)) }
    ensures told { and_then (outcome result) (λ cut. cue_of_both (stamp_of (take cut.0 line.now)) (stamp_of (drop cut.1 line.now))) ≡ cue_line_answer line.now }
{
    if line.len() < SHORTEST_LINE {
        return Err(Refusal::MalformedTiming);
    }
    let first_end = first_end(line);
    let arrow_at = run_end(line, first_end, true);
    if line.len() - arrow_at < 3 || !has_arrow(line, arrow_at) {
        return Err(Refusal::MalformedTiming);
    }
    let arrow_end = arrow_at + 3;
    let second_at = run_end(line, arrow_end, true);
    if second_at == arrow_end {
        return Err(Refusal::MalformedTiming);
    }
    Ok((first_end, second_at))
}

// Whether `-->` stands from byte `at` of a line on.
fn has_arrow(line: &[u8], at: usize) -> bool
    requires { at + 3 ≤ length line.now }
    ensures { result ≡ fits arrow (part_of at 3 line.now) }
{
    if line[at] != b'-' {
        return false;
    }
    if line[at + 1] != b'-' {
        return false;
    }
    line[at + 2] == b'>'
}

// Where the first timestamp of a line ends, if it begins with one: a timestamp has nine bytes, or twelve and more.
fn first_end(line: &[u8]) -> usize
    requires { 13 ≤ length line.now }
    ensures { EndsFirst line.now result × (result ≤ length line.now) }
{
    if is_blank(line[9]) {
        return 9;
    }
    if is_blank(line[12]) {
        return 12;
    }
    run_end(line, 13, false)
}

// The end of the blanks, or of the bytes that are none, from byte `from` of a line on.
fn run_end(line: &[u8], from: usize, blank: bool) -> usize
    requires { from ≤ length line.now }
    ensures { (result ≡ from + run blank (drop from line.now)) × (result ≤ length line.now) }
{
    let rest = &line[from..];
    from + rest
        .iter()
        .position(|&byte| is_blank(byte) != blank)
        .unwrap_or(rest.len())
}

fn is_blank(byte: u8) -> bool
    ensures { result ≡ is_blank byte }
{
    byte == SPACE || byte == TAB
}
