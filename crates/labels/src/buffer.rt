// Bytes stored into a lent buffer.

ghost use Rattle.std.specs.Prelude.{◌≡◌, ◌+◌, ◌<◌, ◌≤◌, [], ◌∷◌, ◌++◌, length};
ghost use Rattle.text.specs.Words.{bytes_of};
ghost use Rattle.text.specs.Filled.{filled};

// Stores the first `count` bytes of a number, the lowest first, from byte `at` of a buffer on, and one more byte behind them.
#[tactic(auto, using(crate::proofs::Stores::stores))]
pub fn store(out: &mut [u8], at: usize, word: u64, count: usize, last: u8)
    requires { (count ≤ 8) × (at + count < length out.old) }
    ensures { out.new ≡ filled at (bytes_of count word ++ last ∷ []) out.old }
{
    for i in 0..count {
        out[at + i] = ((word >> (8 * i)) % 256) as u8;
    }
    out[at + count] = last;
}
