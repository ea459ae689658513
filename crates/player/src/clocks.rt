// A transport clock as the two numbers of its place, `heard` and `position`, and what a batch of its values returns and leaves there.

ghost use Rattle.std.specs.Prelude.{◌<◌, ◌^◌, ◌≡◌, pos};
ghost use Rattle.player.specs.Returned.{clock_of};
ghost use Rattle.player.specs.ClockPlaces.{after_batch};

use transport::{Batch, Clock};

pub fn from_numbers(numbers: &[i64; 2]) -> Clock
    ensures { result ≡ clock_of numbers.now }
{
    let [heard, position] = *numbers;
    // Slower with `if`, whose two branches the tests behind it are compiled into.
    (heard != 0).then_some(position)
}

// `count` is how many values the batch had.
pub fn followed_all(batch: Batch, count: usize, place: &mut [i64; 2]) -> i64
    requires { batch.skipped < 2 ^ 63 }
    ensures answer { result ≡ pos batch.skipped }
    ensures place { place.new ≡ after_batch count batch place.old }
{
    if let Some(position) = batch.clock
        && batch.skipped != count
    {
        *place = [1, position];
    }
    batch.skipped as i64
}
