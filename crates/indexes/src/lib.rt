// The numbers of a file's rows, each with its row: which row has a number, and whether a number comes twice.
#![tactic(auto)]

ghost use Rattle.std.specs.Prelude.{◌≡◌, ℕ, length, MatchOption, slice_set};
ghost use Rattle.indexes.specs.Places.{Least, Repeats, SortedPlaces, Stands};
ghost use Rattle.indexes.specs.Steps.{RepeatsNext, StandsAt, is_repeat};
ghost use Rattle.std.specs.Cmp.{IsTotalOrder};
ghost use Rattle.std.specs.List.Sorted.{IsPermutation};

use std::cmp::Ord;

// A number and the row that has it, counted from 0. Places are ordered by number, and then by row.
#[derive(Clone, Copy, PartialEq, Eq, PartialOrd, Ord)]
pub struct Place<N> {
    pub number: N,
    pub row: u32,
}

// Writes an element; nothing, where there is no such place.
pub fn put<X: Copy>(xs: &mut [X], at: usize, x: X)
    ensures { xs.new ≡ slice_set xs.old at x }
{
    if at < xs.len() {
        xs[at] = x;
    }
}

// Whether the second place has the number of the first, in a later row.
fn is_repeat<N: Ord>(before: &Place<N>, after: &Place<N>) -> bool
    ensures { result ≡ is_repeat N.Ord.cmp before.now after.now }
{
    before.row < after.row && before.number == after.number
}

// The least row whose place follows the one just before it. Among sorted places these are all the rows that repeat a number.
fn least_repeat<N: Ord>(places: &[Place<N>]) -> Option<u32>
    ensures { (o : IsTotalOrder N.Ord.cmp) → Least (RepeatsNext o places.now (length places.now)) result }
{
    places
        .iter()
        .zip(places.iter().skip(1))
        .filter(|(before, after)| is_repeat(before, after))
        .map(|(_, after)| after.row)
        .min()
}

// Sorts the places, and answers the first row whose number an earlier row has. Clauses hold of any proof `o` that the order of
// the numbers is total, so that a caller may name its own.
pub fn first_repeat<N: Ord + Copy>(places: &mut [Place<N>]) -> Option<u32>
    ensures same { IsPermutation places.old places.new }
    ensures sorted { (o : IsTotalOrder N.Ord.cmp) → SortedPlaces o places.new }
    ensures first { (o : IsTotalOrder N.Ord.cmp) → Least (Repeats o places.old) result }
{
    places.sort_unstable();
    least_repeat(places)
}

// The row of the place at i, if there is one and it has the number.
fn row_at<N: Ord>(places: &[Place<N>], i: usize, number: &N) -> Option<u32>
    ensures { (o : IsTotalOrder N.Ord.cmp) → MatchOption result ((k : ℕ) → StandsAt o places.now number.now i k → ⊥) (StandsAt o places.now number.now i) }
{
    places
        .get(i)
        .filter(|place| place.number == *number)
        .map(|place| place.row)
}

// The row of a number among sorted places: the first, if several rows have it.
pub fn row_of<N: Ord + Copy>(places: &[Place<N>], number: N) -> Option<u32>
    ensures { (o : IsTotalOrder N.Ord.cmp) → SortedPlaces o places.now → Least (Stands o places.now number) result }
{
    // row 0 is the first place that the number can have, so its rows begin there or just after
    match places.binary_search(&Place { number, row: 0 }) {
        Ok(i) | Err(i) => row_at(places, i, &number),
    }
}
