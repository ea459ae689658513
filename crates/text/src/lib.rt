// Text put into a lent buffer piece by piece. What has no room is not put, and the place behind it is then where it was to begin.
// Four bytes read as one number.
//
//     put(out, at, piece)         the piece from byte `at` on; the place behind it
//     put_number(out, at, n)      a number in decimal, without leading zeros; the place behind it
//     number_length(n)            how many digits that has
//     four_bytes(a, b, c, d)      the number of four bytes, the lowest first

#![tactic(auto)]

ghost use Rattle.std.specs.Prelude.{◌≡◌, ◌+◌, ◌≤◌, [], ◌∷◌, leb, length};
ghost use Rattle.text.specs.Decimal.{digits, decimal};
ghost use Rattle.text.specs.Words.{word, part_of};
ghost use Rattle.text.specs.Filled.{filled, place_behind, placed};

// Bytes of the longest block that is stored at once.
const BLOCK: usize = 32;

// Whether `count` bytes have room from byte `at` on.
fn has_room(length: usize, at: usize, count: usize) -> bool
    ensures { result ≡ leb (at + count) length }
{
    at <= length && count <= length - at
}

// Where there is no room it answers `at` and no error, since a public call that could not fail still cannot.
#[tactic(auto, using(crate::proofs::Filled::filled_slice))]
pub fn put(out: &mut [u8], at: usize, piece: &[u8]) -> usize
    ensures place { result ≡ place_behind at piece.now out.old }
    ensures buffer { out.new ≡ placed at piece.now out.old }
{
    let count = piece.len();
    if !has_room(out.len(), at, count) {
        return at;
    }
    store(&mut out[at..at + count], piece);
    at + count
}

#[tactic(auto, using(crate::proofs::Decimal::decimal_digits, crate::proofs::Filled::filled_slice))]
pub fn put_number(out: &mut [u8], at: usize, n: u64) -> usize
    ensures place { result ≡ place_behind at (decimal n) out.old }
    ensures buffer { out.new ≡ placed at (decimal n) out.old }
{
    let count = number_length(n);
    if !has_room(out.len(), at, count) {
        return at;
    }
    store_digits(&mut out[at..at + count], n);
    at + count
}

// 1 to 20.
pub fn number_length(n: u64) -> usize
    ensures { (result ≡ length (decimal n)) × (result ≤ 20) }
{
    n.checked_ilog10().map_or(1, |power| power as usize + 1)
}

// The number of four bytes, the lowest first.
pub fn four_bytes(a: u8, b: u8, c: u8, d: u8) -> u32
    ensures { result ≡ word (a ∷ b ∷ c ∷ d ∷ []) }
{
    u32::from_le_bytes([a, b, c, d])
}

// Stores a piece by blocks of some fixed sizes, which the compiler makes single steps of. The last block may go over bytes of the one
// before.
fn store(to: &mut [u8], piece: &[u8])
    requires { length piece.now ≡ length to.old }
    ensures { to.new ≡ piece.now }
{
    let count = piece.len();
    if count >= BLOCK {
        store_blocks(to, piece);
    } else if count >= 16 {
        store_ends(to, piece, 16);
    } else if count >= 8 {
        store_ends(to, piece, 8);
    } else if count >= 4 {
        store_ends(to, piece, 4);
    } else {
        store_part(to, piece);
    }
}

// A piece of at least one block, by whole blocks; the last may go over bytes of the one before.
#[tactic(auto, using(crate::proofs::Filled::filled_nothing))]
fn store_blocks(to: &mut [u8], piece: &[u8])
    requires long { BLOCK ≤ length piece.now }
    requires same { length piece.now ≡ length to.old }
    ensures { to.new ≡ piece.now }
{
    let last = piece.len() - BLOCK;
    for i in (0..last).step_by(BLOCK) {
        store_block(to, piece, i, BLOCK);
    }
    store_block(to, piece, last, BLOCK);
}

// A piece of one to two blocks of some size: its first block and its last, which may overlap.
fn store_ends(to: &mut [u8], piece: &[u8], size: usize)
    requires block { size ≤ BLOCK }
    requires ends { (size ≤ length piece.now) × (length piece.now ≤ size + size) }
    requires same { length piece.now ≡ length to.old }
    ensures { to.new ≡ piece.now }
{
    store_block(to, piece, 0, size);
    store_block(to, piece, piece.len() - size, size);
}

// The block of a piece from its byte `from` on. It is read whole before it is stored, so that the compiler can make one load and one
// store of it.
fn store_block(to: &mut [u8], piece: &[u8], from: usize, size: usize)
    requires block { size ≤ BLOCK }
    requires within { from + size ≤ length piece.now }
    requires same { length piece.now ≡ length to.old }
    ensures { to.new ≡ filled from (part_of from size piece.now) to.old }
{
    let mut block: [u8; BLOCK] = [0; BLOCK];
    store_part(&mut block[..size], &piece[from..from + size]);
    store_part(&mut to[from..from + size], &block[..size]);
}

// No `copy_from_slice`, which may become a call of `memcpy`: the archive calls no function outside itself but `memset`. By an index, since
// a proof knows no byte that is written through `to.iter_mut().zip(piece)`.
fn store_part(to: &mut [u8], piece: &[u8])
    requires { length piece.now ≡ length to.old }
    ensures { to.new ≡ piece.now }
{
    for i in 0..piece.len() {
        to[i] = piece[i];
    }
}

// The last digits of a number, as many as there are bytes, the last of them first. By an index, since a proof knows no byte that is
// written through `to.iter_mut().rev()`.
#[tactic(auto, using(crate::proofs::Filled::filled_nothing))]
fn store_digits(to: &mut [u8], n: u64)
    ensures { to.new ≡ digits n (length to.old) }
{
    let mut rest = n;
    for i in (0..to.len()).rev() {
        to[i] = (48 + rest % 10) as u8;
        rest /= 10;
    }
}
