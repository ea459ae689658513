// A recording index: its tests, the places of what they find, and its days.

ghost use Rattle.std.specs.Prelude.{◌≡◌, map, [], ◌∷◌, ◌++◌, length};
ghost use Rattle.instant.specs.Units.{last_instant};
ghost use Rattle.instant.specs.Instant.{day_of};
ghost use Rattle.instant.specs.Answers.{first_bad, first_fall};
ghost use Rattle.instant.specs.Order.{AllInRange, NeverFalls};
ghost use Rattle.instant.specs.Checked.{falls_from, faulty, place_in};

use super::floored;
use super::units::{FIRST_INSTANT, LAST_INSTANT};

// Whether an instant lies outside the range or is smaller than the one before it. With the range's first instant in front of the list
// and its last behind it, both are one question: whether a number is smaller than the one before it.
#[tactic(auto, using(crate::proofs::Faults::falls_block), unfolding(crate::specs::Checked::faulty))]
pub fn is_faulty(instants: &[i64]) -> bool
    ensures { result ≡ faulty instants.now }
{
    let (blocks, rest) = instants.as_chunks::<8>();
    let mut before = FIRST_INSTANT;
    for block in blocks {
        if eight_fall(before, block) {
            return true;
        }
        before = block[7];
    }
    falls_to_last(before, rest)
}

// Whether one of eight instants that go on from `before` is smaller than the one before it. All eight are compared, also where one falls.
#[tactic(auto, using(crate::proofs::Faults::falls_next, crate::proofs::Faults::falls_none))]
fn eight_fall(before: i64, block: &[i64; 8]) -> bool
    ensures { result ≡ falls_from before block.now }
{
    let mut before = before;
    let mut falls = false;
    for &instant in block {
        falls |= instant < before;
        before = instant;
    }
    falls
}

// Whether one of the instants that go on from `before`, or then the last instant of the range, is smaller than the one before it.
#[tactic(auto, using(crate::proofs::Faults::falls_one, crate::proofs::Faults::falls_end))]
fn falls_to_last(before: i64, instants: &[i64]) -> bool
    ensures { result ≡ falls_from before (instants.now ++ last_instant ∷ []) }
{
    let mut before = before;
    for &instant in instants {
        if instant < before {
            return true;
        }
        before = instant;
    }
    LAST_INSTANT < before
}

// The place of the first instant outside the range.
#[tactic(auto, using(crate::proofs::Lists::bad_place))]
pub fn first_bad(instants: &[i64]) -> Option<usize>
    ensures { result ≡ place_in instants.now (first_bad instants.now) }
{
    numbers::first_place(FIRST_INSTANT, LAST_INSTANT, true, instants)
}

// The place of the first instant smaller than the one before it.
pub fn first_fall(instants: &[i64]) -> Option<usize>
    ensures { result ≡ place_in instants.now (first_fall instants.now) }
{
    let earlier = instants.windows(2).position(|pair| pair[1] < pair[0])?;
    Some(earlier + 1)
}

// The day count of each instant, sixteen at a time. What is required of the lists is required of each block and of the rest too: a type
// that holds it would be built anew for each of them, by the same proofs.
#[tactic(auto, using(crate::proofs::Blocks::filled_chunk, crate::proofs::Blocks::filled_rest))]
pub fn fill_days(instants: &[i64], days: &mut [i32])
    requires { (length instants.now ≡ length days.old) × (AllInRange instants.now × NeverFalls instants.now) }
    ensures { days.new ≡ map day_of instants.now }
{
    let (blocks, rest) = instants.as_chunks::<16>();
    for (i, block) in blocks.iter().enumerate() {
        fill_block(block, &mut days[i * 16..(i + 1) * 16]);
    }
    fill_each(rest, &mut days[blocks.len() * 16..]);
}

// The day count of each of sixteen instants: where the first and the last are the same, there is no other.
#[tactic(auto, using(crate::proofs::Ranges::day_fits, crate::proofs::Blocks::same_days))]
fn fill_block(instants: &[i64; 16], days: &mut [i32])
    requires { (length instants.now ≡ length days.old) × (AllInRange instants.now × NeverFalls instants.now) }
    ensures { days.new ≡ map day_of instants.now }
{
    let first = floored::day(instants[0]);
    if first == floored::day(instants[15]) {
        days.fill(first as i32);
    } else {
        fill_each(instants, days);
    }
}

// The day count of each instant, one by one.
#[tactic(auto, using(crate::proofs::Ranges::day_fits, crate::proofs::Blocks::filled_more))]
fn fill_each(instants: &[i64], days: &mut [i32])
    requires { (length instants.now ≡ length days.old) × AllInRange instants.now }
    ensures { days.new ≡ map day_of instants.now }
{
    for (i, &instant) in instants.iter().enumerate() {
        days[i] = floored::day(instant) as i32;
    }
}
