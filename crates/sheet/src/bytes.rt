// The numbers of a sheet and its bytes.

ghost use Rattle.std.specs.Prelude.{◌≡◌, ◌+◌, ◌*◌, ◌≤◌, ◌<◌, false, length};
ghost use Rattle.text.specs.Words.{bytes_of};
ghost use Rattle.text.specs.Filled.{filled};
ghost use Rattle.sheet.specs.Sheet.{numbers_bytes, sheet_bytes};
ghost use Rattle.sheet.specs.Answers.{number_at, claim_at, unfit};

use crate::Claim;

// The number of the four bytes from byte `at` on.
pub fn number_at(sheet: &[u8], at: usize) -> u32
    requires { at + 4 ≤ length sheet.now }
    ensures { result ≡ number_at sheet.now at }
{
    text::four_bytes(sheet[at], sheet[at + 1], sheet[at + 2], sheet[at + 3])
}

// The eight numbers from byte `at` on.
#[tactic(auto, unfolding(crate::specs::Answers::claim_at))]
pub fn claim_at(sheet: &[u8], at: usize) -> Claim
    requires { at + 32 ≤ length sheet.now }
    ensures { result ≡ claim_at sheet.now at }
{
    Claim {
        a: number_at(sheet, at),
        b: number_at(sheet, at + 4),
        d: number_at(sheet, at + 8),
        m: number_at(sheet, at + 12),
        c: number_at(sheet, at + 16),
        k: number_at(sheet, at + 20),
        t: number_at(sheet, at + 24),
        bound: number_at(sheet, at + 28),
    }
}

// Stores some numbers from byte `at` on, each as four bytes.
fn put_numbers(out: &mut [u8], at: usize, numbers: &[u32])
    requires { at + 4 * length numbers.now ≤ length out.old }
    ensures { out.new ≡ filled at (numbers_bytes numbers.now) out.old }
{
    for (i, n) in numbers.iter().enumerate() {
        put_number(out, at + 4 * i, *n);
    }
}

// Stores a number as four bytes from byte `at` on.
fn put_number(out: &mut [u8], at: usize, n: u32)
    requires { at + 4 ≤ length out.old }
    ensures { out.new ≡ filled at (bytes_of 4 n) out.old }
{
    out[at..at + 4].copy_from_slice(&n.to_le_bytes());
}

// Writes a sheet to the front of a buffer.
pub fn put_sheet(note: &[u8], numbers: &[u32], out: &mut [u8])
    requires { (unfit (length note.now) (length numbers.now) ≡ false) × (length note.now + 4 * length numbers.now + 12 ≤ length out.old) }
    ensures { out.new ≡ filled 0 (sheet_bytes note.now numbers.now) out.old }
{
    let offset = text::put(out, 0, note);
    let count = numbers.len();
    let end = offset + 4 * count;
    put_numbers(out, offset, numbers);
    put_numbers(
        out,
        end,
        &[offset as u32, (count / 8) as u32, (end + 12) as u32],
    );
}
