// Sheets of claims: a free note, records of eight numbers and a trailer, as bytes. A number is four bytes, the lowest first.
//
//     read(sheet)                      number of records, and where the first begins     refusal 17
//     record(sheet, place)             the eight numbers of a record                     refusal 17
//     check_record(sheet, place)       accepted                                          refusals 17, then 9, then 10 with the least n, or 11
//     write(note, numbers, out)        bytes written                                     refusals 17, then 7
//     report(sheet, out)               bytes written: a line for each record             refusal 7
//
// `REPORT_MOST` is the number of bytes of the longest report.

#![tactic(auto)]

use constants::Constants;
use opened::Opened;
use refusal::{Refusal, RefusalAt};

mod bytes;
mod lines;
mod opened;

ghost use Rattle.std.specs.Prelude.{◌≡◌};
ghost use Rattle.refusal.specs.Outcome.{value, outcome};
ghost use Rattle.refusal.specs.Written.{bytes_written, written_buffer};
ghost use Rattle.constants.specs.Answers.{claim_outcome};
ghost use Rattle.sheet.specs.Answers.{read_answer, record_answer, check_answer, sheet_text, constants_of, verdict, unfit};
ghost use Rattle.sheet.specs.Report.{report_text};

// The longest report: 1,024 lines, each with the place of up to four digits and `10` with a least n of ten digits.
pub const REPORT_MOST: usize = 18346;

const BYTES_MOST: usize = 65536;

const RECORDS_MOST: usize = 1024;

const NUMBERS_EACH: usize = 8;

const RECORD_LENGTH: usize = 4 * NUMBERS_EACH;

const TRAILER_LENGTH: usize = 12;

// What a sheet holds: how many records, and where the first of them begins, which is the length of the note.
#[derive(Clone, Copy, Debug, PartialEq, Eq)]
pub struct Contents {
    pub records: usize,
    pub offset: usize,
}

// The eight numbers of a record.
#[derive(Clone, Copy, Debug, PartialEq, Eq)]
pub struct Claim {
    pub a: u32,
    pub b: u32,
    pub d: u32,
    pub m: u32,
    pub c: u32,
    pub k: u32,
    pub t: u32,
    pub bound: u32,
}

// The constants of a claim.
impl From<Claim> for Constants {
    ghost from_gives = { λ claim made. made ≡ constants_of claim };

    fn from(claim: Claim) -> Constants {
        Constants {
            a: claim.a.into(),
            b: claim.b.into(),
            d: claim.d.into(),
            m: claim.m.into(),
            c: claim.c.into(),
            k: claim.k.into(),
            t: claim.t.into(),
        }
    }
}

// The checker's answer to a claim.
fn judge(claim: Claim) -> Result<(), RefusalAt<u64>>
    ensures { claim_outcome result ≡ verdict claim }
{
    constants::check_bound(claim.into(), claim.bound.into())
}

// The number of records of a sheet, and where the first begins.
pub fn read(sheet: &[u8]) -> Result<Contents, Refusal>
    ensures answer { outcome result ≡ read_answer sheet.now }
{
    Ok(Opened::open(sheet)?.contents)
}

// The eight numbers of the record at `place`, the first of which is 0.
pub fn record(sheet: &[u8], place: i64) -> Result<Claim, Refusal>
    ensures answer { outcome result ≡ record_answer sheet.now place }
{
    let opened = Opened::open(sheet)?;
    opened.record(place)
}

// Whether the claim of the record at `place` holds: the checker's answer to its numbers.
pub fn check_record(sheet: &[u8], place: i64) -> Result<(), RefusalAt<u64>>
    ensures answer { claim_outcome result ≡ check_answer sheet.now place }
{
    let claim = record(sheet, place)?;
    judge(claim)
}

// Whether a sheet cannot have a note and a list of numbers of some lengths.
fn is_unfit(note: usize, numbers: usize) -> bool
    ensures { result ≡ unfit note numbers }
{
    numbers % NUMBERS_EACH != 0
        || numbers > NUMBERS_EACH * RECORDS_MOST
        || note > BYTES_MOST - TRAILER_LENGTH - 4 * numbers
}

// Writes the sheet of a note and of records, eight numbers to each, to the front of a buffer.
pub fn write(note: &[u8], numbers: &[u32], out: &mut [u8]) -> Result<usize, Refusal>
    ensures answer { outcome result ≡ bytes_written (sheet_text note.now numbers.now) out.old }
    ensures buffer { out.new ≡ written_buffer (sheet_text note.now numbers.now) out.old }
{
    if is_unfit(note.len(), numbers.len()) {
        return Err(Refusal::MalformedSheet);
    }
    let length = note.len() + 4 * numbers.len() + TRAILER_LENGTH;
    if out.len() < length {
        return Err(Refusal::BufferTooShort);
    }
    bytes::put_sheet(note, numbers, out);
    Ok(length)
}

// Writes the lines that the program prints for a sheet to the front of a buffer: the verdict of each record, or `17`.
pub fn report(sheet: &[u8], out: &mut [u8]) -> Result<usize, Refusal>
    ensures answer { outcome result ≡ bytes_written (value (report_text sheet.now)) out.old }
    ensures buffer { out.new ≡ written_buffer (value (report_text sheet.now)) out.old }
{
    match Opened::open(sheet) {
        Ok(sheet) => sheet.put_report(out),
        Err(why) => lines::put_refused(why, out),
    }
}
