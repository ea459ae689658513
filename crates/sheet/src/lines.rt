// A line of a report: a record's place, a space and its verdict. A buffer and a place go from call to call here, since the calls of
// `text` take both and answer the place behind their piece.

ghost use Rattle.std.specs.Prelude.{◌≡◌, ◌+◌, ◌≤◌, ◌++◌, length};
ghost use Rattle.refusal.specs.Numbers.{refusal_number};
ghost use Rattle.refusal.specs.Outcome.{value, outcome};
ghost use Rattle.refusal.specs.Written.{bytes_written, written_buffer};
ghost use Rattle.text.specs.Decimal.{decimal};
ghost use Rattle.text.specs.Filled.{Stored};
ghost use Rattle.constants.specs.Answers.{claim_outcome};
ghost use Rattle.sheet.specs.Report.{newline, verdict_text, line};

use refusal::{Refusal, RefusalAt};

// The line of a sheet that is refused: the refusal's number.
pub fn put_refused(why: Refusal, out: &mut [u8]) -> Result<usize, Refusal>
    ensures answer { outcome result ≡ bytes_written (value (decimal (refusal_number why) ++ newline)) out.old }
    ensures buffer { out.new ≡ written_buffer (value (decimal (refusal_number why) ++ newline)) out.old }
{
    let number = why.number();
    if out.len() < text::number_length(number) + 1 {
        return Err(Refusal::BufferTooShort);
    }
    let behind = text::put_number(out, 0, number);
    Ok(text::put(out, behind, b"\n"))
}

// The line of a record from byte `at` on; the place behind it.
pub fn put_line(
    out: &mut [u8],
    at: usize,
    place: usize,
    answer: Result<(), RefusalAt<u64>>,
) -> usize
    requires { at + length (line place (claim_outcome answer)) ≤ length out.old }
    ensures { Stored at (line place (claim_outcome answer)) out.old out.new result }
{
    let behind_place = text::put_number(out, at, place as u64);
    let behind_space = text::put(out, behind_place, b" ");
    let behind_verdict = put_verdict(out, behind_space, answer);
    text::put(out, behind_verdict, b"\n")
}

fn put_verdict(out: &mut [u8], at: usize, answer: Result<(), RefusalAt<u64>>) -> usize
    requires { at + length (verdict_text (claim_outcome answer)) ≤ length out.old }
    ensures { Stored at (verdict_text (claim_outcome answer)) out.old out.new result }
{
    match answer {
        Ok(()) => text::put(out, at, b"accepted"),
        Err(RefusalAt::Alone(why)) => text::put_number(out, at, why.number()),
        Err(RefusalAt::At(why, n)) => {
            let behind_number = text::put_number(out, at, why.number());
            let behind_space = text::put(out, behind_number, b" ");
            text::put_number(out, behind_space, n)
        }
    }
}

// How long a line is, without writing it.
pub fn line_length(place: usize, answer: Result<(), RefusalAt<u64>>) -> usize
    ensures { (result ≡ length (line place (claim_outcome answer))) × (result ≤ 63) }
{
    text::number_length(place as u64) + 1 + verdict_length(answer) + 1
}

fn verdict_length(answer: Result<(), RefusalAt<u64>>) -> usize
    ensures { (result ≡ length (verdict_text (claim_outcome answer))) × (result ≤ 41) }
{
    match answer {
        Ok(()) => b"accepted".len(),
        Err(RefusalAt::Alone(why)) => text::number_length(why.number()),
        Err(RefusalAt::At(why, n)) => {
            text::number_length(why.number()) + 1 + text::number_length(n)
        }
    }
}
