// Signed numbers: the test of a range, of one number and along a list; the floored quotient and remainder as definitions (specs/); and
// the laws by which a tested i64 becomes a natural number and comes back (proofs/).
//
//     outside(first, last, x)                  whether x lies outside first..last, both ends included
//     first_place(first, last, wanted, list)   the first place whose number lies outside, or not, if there is one

#![tactic(auto)]

ghost use Rattle.std.specs.Prelude.{◌≡◌, ◌<◌, length, IfSome};
ghost use Rattle.numbers.specs.Range as range;

// Whether x lies outside first..last.
pub fn outside(first: i64, last: i64, x: i64) -> bool
    ensures { result ≡ range.outside first last x }
{
    x < first || x > last
}

// The first place of a list whose number lies outside first..last, or not outside, as `wanted` says.
pub fn first_place(first: i64, last: i64, wanted: bool, list: &[i64]) -> Option<usize>
    ensures found { result ≡ range.place_found first last wanted list.now }
    ensures within { IfSome result (λ place. place < length list.now) }
{
    list.iter().position(|&x| outside(first, last, x) == wanted)
}
