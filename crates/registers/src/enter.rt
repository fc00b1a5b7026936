// Entering a file: its rows take the place of the supplier's entries, but for those that are still blocked.
ghost use Rattle.std.specs.Prelude.{◌≡◌, ◌+◌, ◌-◌, ◌<◌, ◌≤◌, min, ◌++◌, map, length, take, count_by, filter, MatchBool};
ghost use Rattle.files.specs.Files.{record_at};
ghost use Rattle.files.specs.Rows.{row_in};
ghost use Rattle.registers.specs.Admission.{entry_of, row_entry};
ghost use Rattle.registers.specs.Entries.{ids, stays_blocked};
ghost use Rattle.registers.specs.Ids.{id_cmp};
ghost use Rattle.registers.specs.Own.{Renewed, part};
ghost use Rattle.std.specs.Cmp.{IsTotalOrder};
ghost use Rattle.std.specs.Ordering.{is_gt, is_lt};
ghost use Rattle.std.specs.List.Sorted.{IsPermutation, IsSortedWithin, IsStrictlySortedBy};

use crate::entry::{Entry, Id, Standing};
use crate::own::stays_blocked;
use files::rows::Rows;
use indexes::Place;
use kinds::kind::Kind;
use std::cmp::Ord;
use std::ops::Range;

// Moves the entries that are still blocked to the front, and answers how many they are. It reads at one place and writes at
// another of one slice, which no iterator lends at once; and no method filters a slice in its place without a heap.
fn keep_blocked<N: Copy, T: Copy>(own: &mut [Entry<N, T>], year: u16) -> usize
    ensures count { result ≡ count_by (stays_blocked year) own.old }
    ensures front { take result own.new ≡ filter (stays_blocked year) own.old }
{
    let mut count = 0;
    for i in 0..own.len() {
        let entry = own[i];
        if stays_blocked(&entry, year) {
            own[count] = entry;
            count += 1;
        }
    }
    count
}

// Copies the elements from one place up to another, so that they begin at a third. Where they stand there already nothing is
// copied: most admissions leave later suppliers' entries where they are, and these may be many.
fn shift<X: Copy>(xs: &mut [X], from: usize, until: usize, to: usize)
    requires ends { (from ≤ until) × (until ≤ length xs.old) }
    requires room { to + (until - from) ≤ length xs.old }
    ensures front { take to xs.new ≡ take to xs.old }
    ensures moved { part to (to + (until - from)) xs.new ≡ part from until xs.old }
{
    if from != to {
        xs.copy_within(from..until, to);
    }
}

// The entry that a record makes.
fn entry_of<K: Kind>(newer: &K, supplier: u32, year: u16) -> Entry<K::Number, K::Told>
    ensures { result ≡ entry_of K.Kind.meaning supplier year newer.now }
{
    Entry {
        id: Id {
            supplier,
            number: newer.number(),
        },
        standing: if newer.key_flag().stays() {
            Standing::Live(newer.told())
        } else {
            Standing::Retired(year)
        },
    }
}

// The entry of the row at a place.
fn entry_at<K: Kind>(
    rows: &Rows<'_>,
    place: &Place<K::Number>,
    year: u16,
) -> Entry<K::Number, K::Told>
    ensures { result ≡ row_entry K.Kind.meaning rows.now.supplier (record_at K.Kind.meaning rows.now.supplier (row_in rows.now)) year place.now.row }
{
    let newer = rows.record::<K>(place.row as usize);
    entry_of(&newer, rows.supplier, year)
}

// Whether an entry's number is above that of a place.
fn is_above<N: Ord, T>(entry: &Entry<N, T>, place: &Place<N>) -> bool
    ensures { result ≡ is_gt (N.Ord.cmp entry.now.id.number place.now.number) }
{
    entry.id.number > place.number
}

// Puts the entries of the rows among those that are still blocked, which stand in front, from the back on: the higher
// number of the last ones first. Both ascend, so what comes out ascends too, and is cheap to sort. Where the rows are written
// behind the blocked ones and the sort alone orders them, an admission to a book of 262144 entries a run takes 1166 ns a row
// beside 465, longer than its reading, and filling that book 1.28 s beside 1.01. It reads and writes one slice at two places,
// which no iterator lends at once.
fn merge<K: Kind>(
    own: &mut [Entry<K::Number, K::Told>],
    blocked: usize,
    rows: &Rows<'_>,
    year: u16,
    places: &[Place<K::Number>],
)
    requires { length own.old ≡ blocked + length places.now }
    ensures { IsPermutation (take blocked own.old ++ map (λ p. row_entry K.Kind.meaning rows.now.supplier (record_at K.Kind.meaning rows.now.supplier (row_in rows.now)) year p.row) places.now) own.new }
{
    let mut blocked = blocked;
    let mut left = places.len();
    while left > 0 {
        let place = &places[left - 1];
        if blocked > 0 && is_above(&own[blocked - 1], place) {
            let entry = own[blocked - 1];
            own[blocked + left - 1] = entry;
            blocked -= 1;
        } else {
            own[blocked + left - 1] = entry_at::<K>(rows, place, year);
            left -= 1;
        }
    }
}

// Sorts entries, and answers whether no number stands twice among them. It asks `cmp`, of which the clause speaks: with `x < y`
// it stays open that the derived `partial_cmp` of two entries says what their `cmp` says.
fn sort<N: Ord, T>(entries: &mut [Entry<N, T>]) -> bool
    ensures same { IsPermutation entries.old entries.new }
    ensures sorted { IsSortedWithin (λ x y. is_lt (id_cmp N.Ord.cmp x.id y.id)) entries.new 0 (length entries.new) }
    ensures single { IsTotalOrder N.Ord.cmp → MatchBool result (IsStrictlySortedBy (id_cmp N.Ord.cmp) (ids entries.new)) (IsStrictlySortedBy (id_cmp N.Ord.cmp) (ids entries.new) → ⊥) }
{
    entries.sort_unstable();
    entries.is_sorted_by(|x, y| x.cmp(y).is_lt())
}

// Puts the entries of the rows in the place of a supplier's own, but for those that are still blocked, and answers how
// many entries there are then; none, where a number stands twice among the supplier's.
pub(crate) fn replace_own<K: Kind>(
    entries: &mut [Entry<K::Number, K::Told>],
    used: usize,
    own: Range<usize>,
    rows: &Rows<'_>,
    year: u16,
    places: &[Place<K::Number>],
) -> Option<usize>
    requires within { (own.start ≤ own.end) × (own.end ≤ used) × (used ≤ length entries.old) }
    requires room { used - (own.end - own.start) + count_by (stays_blocked year) (part own.start own.end entries.old) + length places.now ≤ length entries.old }
    ensures { Renewed K.Number.Ord.cmp entries.old entries.new own.start own.end used (filter (stays_blocked year) (part own.start own.end entries.old) ++ map (λ p. row_entry K.Kind.meaning rows.now.supplier (record_at K.Kind.meaning rows.now.supplier (row_in rows.now)) year p.row) places.now) result }
{
    let Range { start, end } = own;
    let blocked = keep_blocked(&mut entries[start..end], year);
    let until = start + blocked + places.len();
    shift(entries, end, used, until);
    merge::<K>(&mut entries[start..until], blocked, rows, year, places);
    let single = sort(&mut entries[start..until]);
    single.then_some(until + (used - end))
}
