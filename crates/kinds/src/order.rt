// The file order of rows, one check for every key.
ghost use Rattle.std.specs.Ordering.{is_gt};
ghost use Rattle.std.specs.Prelude.{◌≡◌};

use std::cmp::Ord;

// Whether the row before comes later in file order; equal keys may follow one another. It asks `cmp`: two long texts that begin
// alike are passed over by it in strides, and by `>` byte by byte.
pub fn comes_later<O: Ord>(before: &O, after: &O) -> bool
    ensures { result ≡ is_gt (O.Ord.cmp before.now after.now) }
{
    before.cmp(after).is_gt()
}
