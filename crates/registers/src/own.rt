// The entries of one supplier: they stand together, since entries ascend by supplier.
ghost use Rattle.std.specs.Prelude.{◌≡◌, ◌≤◌, length, count_by, filter};
ghost use Rattle.registers.specs.Own.{BySupplier, OwnPart, Staying};
ghost use Rattle.registers.specs.Entries.{is_own, stays_blocked};

use crate::entry::{Entry, Standing, is_blocked};
use std::ops::Range;

// The places of a supplier's entries, which begin where the first supplier stands that is not lower, and end before the
// first that is higher.
fn own_part<N, T>(entries: &[Entry<N, T>], supplier: u32) -> Range<usize>
    ensures within { (result.start ≤ result.end) × (result.end ≤ length entries.now) }
    ensures part { BySupplier entries.now → OwnPart entries.now supplier result.start result.end }
{
    let start = entries.partition_point(|e| e.id.supplier < supplier);
    let end = entries.partition_point(|e| e.id.supplier <= supplier);
    start..end.max(start)
}

// Whether an entry's number is retired and still blocked in a year.
pub(crate) fn stays_blocked<N, T>(entry: &Entry<N, T>, year: u16) -> bool
    ensures { result ≡ stays_blocked year entry.now }
{
    match entry.standing {
        Standing::Live(_) => false,
        Standing::Retired(retired) => is_blocked(retired, year),
    }
}

fn count_blocked<N, T>(entries: &[Entry<N, T>], year: u16) -> usize
    ensures { result ≡ count_by (stays_blocked year) entries.now }
{
    entries
        .iter()
        .filter(|entry| stays_blocked(entry, year))
        .count()
}

// The places of a supplier's own entries, and how many entries stay beside its next file: the others', and those of its own
// that are still blocked.
pub(crate) fn staying<N, T>(
    entries: &[Entry<N, T>],
    supplier: u32,
    year: u16,
) -> (Range<usize>, usize)
    ensures { Staying entries.now supplier year result.0.start result.0.end result.1 }
{
    let own = own_part(entries, supplier);
    let mine = &entries[own.start..own.end];
    let stay = entries.len() - mine.len() + count_blocked(mine, year);
    (own, stay)
}

// A supplier's own entries.
#[tactic(auto, using(crate::proofs::Split::own_are))]
pub(crate) fn own_of<N, T>(entries: &[Entry<N, T>], supplier: u32) -> &[Entry<N, T>]
    ensures { BySupplier entries.now → result.now ≡ filter (is_own supplier) entries.now }
{
    let own = own_part(entries, supplier);
    &entries[own.start..own.end]
}
