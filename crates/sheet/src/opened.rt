// Sheets whose trailer was read and fits: their records, the verdicts on these, and the lines of a report.

ghost use Rattle.std.specs.Prelude.{◌≡◌, ◌<◌, ◌^◌};
ghost use Rattle.refusal.specs.Outcome.{value};
ghost use Rattle.sheet.specs.Answers.{read_answer, misfits};

use crate::{
    BYTES_MOST, Claim, Contents, RECORD_LENGTH, RECORDS_MOST, REPORT_MOST, TRAILER_LENGTH, bytes,
    lines,
};
use refusal::{Refusal, RefusalAt};

// The bytes of a sheet, and what they hold.
#[derive(Clone, Copy)]
pub struct Opened<'a> {
    pub bytes: &'a [u8],
    pub contents: Contents,
    ghost is_read: { read_answer bytes.now ≡ value contents },
}

impl Opened<'_> {
    ghost use Rattle.std.specs.Prelude.{◌≡◌, ◌<◌, ◌≤◌, ltb, length, pos};
    ghost use Rattle.refusal.specs.Outcome.{value, outcome};
    ghost use Rattle.refusal.specs.Written.{bytes_written, written_buffer};
    ghost use Rattle.text.specs.Filled.{Stored};
    ghost use Rattle.constants.specs.Answers.{claim_outcome};
    ghost use Rattle.sheet.specs.Answers.{record_in_place, claim_in_place, check_answer};
    ghost use Rattle.sheet.specs.Opened.{Opens, lines_in};

    // The sheet of some bytes.
    pub fn open(bytes: &[u8]) -> Result<Opened<'_>, Refusal>
        ensures { Opens bytes.now result }
    {
        let length = bytes.len();
        if length > BYTES_MOST || length < TRAILER_LENGTH {
            return Err(Refusal::MalformedSheet);
        }
        let offset = bytes::number_at(bytes, length - 12) as usize;
        let records = bytes::number_at(bytes, length - 8) as usize;
        let whole = bytes::number_at(bytes, length - 4) as usize;
        if trailer_misfits(offset, records, whole, length) {
            return Err(Refusal::MalformedSheet);
        }
        Ok(Opened {
            bytes,
            contents: Contents { records, offset },
        })
    }

    // The eight numbers of the record at `place`, the first of which is 0.
    pub fn record(&self, place: i64) -> Result<Claim, Refusal>
        ensures { outcome result ≡ record_in_place self.now.bytes.now self.now.contents place }
    {
        match usize::try_from(place) {
            Ok(place) if place < self.contents.records => Ok(self.claim(place)),
            _ => Err(Refusal::MalformedSheet),
        }
    }

    // The numbers of a record that is there.
    #[tactic(auto, using(crate::proofs::Trailer::opened))]
    fn claim(&self, place: usize) -> Claim
        requires { place < self.now.contents.records }
        ensures { result ≡ claim_in_place self.now.bytes.now self.now.contents place }
    {
        bytes::claim_at(self.bytes, self.contents.offset + RECORD_LENGTH * place)
    }

    // The checker's answer to the record at a place.
    fn judge(&self, place: usize) -> Result<(), RefusalAt<u64>>
        requires { place < self.now.contents.records }
        ensures { claim_outcome result ≡ check_answer self.now.bytes.now (pos place) }
    {
        crate::judge(self.claim(place))
    }

    // The lines of all records.
    pub fn put_report(&self, out: &mut [u8]) -> Result<usize, Refusal>
        ensures answer { outcome result ≡ bytes_written (value (lines_in self.now)) out.old }
        ensures buffer { out.new ≡ written_buffer (value (lines_in self.now)) out.old }
    {
        if self.lack_room(out.len()) {
            return Err(Refusal::BufferTooShort);
        }
        Ok(self.put_lines(out))
    }

    // Whether the lines are longer than a buffer of some length. They are judged for it only where the longest report has no room.
    fn lack_room(&self, room: usize) -> bool
        ensures { result ≡ ltb room (length (lines_in self.now)) }
    {
        if room >= REPORT_MOST {
            return false;
        }
        room < self.lines_length()
    }

    fn put_lines(&self, out: &mut [u8]) -> usize
        requires { length (lines_in self.now) ≤ length out.old }
        ensures { Stored 0 (lines_in self.now) out.old out.new result }
    {
        let mut at = 0;
        for place in 0..self.contents.records {
            at = lines::put_line(out, at, place, self.judge(place));
        }
        at
    }

    // How long the lines are.
    fn lines_length(&self) -> usize
        ensures { result ≡ length (lines_in self.now) }
    {
        let mut total = 0;
        for place in 0..self.contents.records {
            total += lines::line_length(place, self.judge(place));
        }
        total
    }
}

// Whether a trailer does not fit a file of some length, or has too many records.
fn trailer_misfits(offset: usize, records: usize, whole: usize, length: usize) -> bool
    requires { offset < 2 ^ 32 }
    ensures { result ≡ misfits offset records whole length }
{
    records > RECORDS_MOST
        || whole != length
        || offset + RECORD_LENGTH * records + TRAILER_LENGTH != length
}
