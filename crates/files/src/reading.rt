// Reading a file: every row, in order, up to the first fault.
ghost use Rattle.std.specs.Prelude.{◌≡◌, ◌+◌, ◌<◌, ◌≤◌, min, true, length, take, is_ok, Some, None, Ok, Decides, MatchResult};
ghost use Rattle.indexes.specs.Places.{SortedPlaces};
ghost use Rattle.std.specs.Cmp.{IsTotalOrder};
ghost use Rattle.files.specs.Files.{Indexed, Noted, SoundRows, file_fault, judged, light_fault, number_at, told};
ghost use Rattle.files.specs.First.{first};
ghost use Rattle.files.specs.Steps.{Read, rows_read};
ghost use Rattle.kinds.specs.Meaning.{reads};
ghost use Rattle.files.specs.Rows.{row_in};

use crate::fault::{FileFault, RowFault};
use crate::rows::Rows;
use indexes::{Place, first_repeat};
use kinds::kind::Kind;
use kinds::order::comes_later;

// A file has at most so many rows.
pub const MOST_ROWS: usize = 4096;

// Whether the row before, of this key, comes later than the one after it.
fn check_order<K: Kind>(before: &Option<K::Key>, after: &K) -> Result<(), RowFault>
    ensures { MatchResult result (λ _. judged K.Kind.meaning before.now (Ok after.now) ≡ None) (λ e. judged K.Kind.meaning before.now (Ok after.now) ≡ Some e) }
{
    match before {
        Some(key) if comes_later(key, &after.order()) => {
            Err(RowFault::Later(K::record_number(after.number())))
        }
        _ => Ok(()),
    }
}

// Reads row i into the record, after a row of this key; the fault of its first field, or that the row before comes later.
fn read_row<K: Kind>(
    into: &mut K,
    rows: &Rows<'_>,
    i: usize,
    before: &Option<K::Key>,
) -> Result<(), RowFault>
    ensures { MatchResult result (λ _. Read K.Kind.meaning rows.now.supplier (row_in rows.now i) before.now into.new) (λ e. judged K.Kind.meaning before.now (reads K.Kind.meaning rows.now.supplier (row_in rows.now i)) ≡ Some e) }
{
    into.read(rows.supplier, rows.row(i))?;
    check_order(before, into)
}

// Reads so many rows up to the first that has a field at fault or comes before its predecessor, and notes the place of
// each number. There is room for the places.
fn scan<K: Kind>(
    rows: &Rows<'_>,
    count: u32,
    places: &mut [Place<K::Number>],
) -> Result<(), FileFault>
    requires { count ≤ length places.old }
    ensures first { result ≡ told (first (light_fault K.Kind.meaning rows.now.supplier (row_in rows.now)) count) }
    ensures most { rows_read count result ≤ count }
    ensures noted { Noted K.Kind.meaning rows.now.supplier (row_in rows.now) (rows_read count result) places.new }
{
    let mut record = K::values(0, &[]);
    let mut before = None;
    for (i, place) in places[..count as usize].iter_mut().enumerate() {
        let row = i as u32 + 1;
        read_row(&mut record, rows, i, &before).map_err(|fault| FileFault { row, fault })?;
        before = Some(record.order());
        *place = Place {
            number: record.number(),
            row: i as u32,
        };
    }
    Ok(())
}

// How many of so many rows come before the one at fault; all, where there is none.
fn rows_read(count: u32, scanned: &Result<(), FileFault>) -> u32
    ensures { result ≡ rows_read count scanned.now }
{
    match scanned {
        Ok(()) => count,
        Err(fault) => fault.row.saturating_sub(1),
    }
}

// The number of the record in a row, as a fault tells it.
fn number_in<K: Kind>(rows: &Rows<'_>, row: u32) -> u32
    ensures { result ≡ number_at K.Kind.meaning rows.now.supplier (row_in rows.now) row }
{
    K::record_number(rows.record::<K>(row as usize).number())
}

// Reads so many rows, at most 4096 and as many as there is room for places, and answers the first fault. Where there is
// none, the places at the front are those of the rows' numbers, sorted.
pub fn read_file<K: Kind>(
    rows: &Rows<'_>,
    count: u32,
    places: &mut [Place<K::Number>],
) -> Result<(), FileFault>
    ensures first { result ≡ told (file_fault K.Kind.meaning rows.now.supplier (row_in rows.now) (min count (min (length places.old) 4096))) }
    ensures sound { Decides (is_ok result) (SoundRows K.Kind.meaning rows.now.supplier (row_in rows.now) (min count (min (length places.old) 4096))) }
    ensures index { is_ok result ≡ true → count ≤ min (length places.old) 4096 → Indexed K.Kind.meaning rows.now.supplier (row_in rows.now) count (take count places.new) × ((o : IsTotalOrder K.Number.Ord.cmp) → SortedPlaces o (take count places.new)) }
{
    let n = count.min(MOST_ROWS.min(places.len()) as u32);
    let scanned = scan::<K>(rows, n, places);
    let read = rows_read(n, &scanned);
    match first_repeat(&mut places[..read as usize]) {
        Some(row) => Err(FileFault {
            row: row + 1,
            fault: RowFault::Twice(number_in::<K>(rows, row)),
        }),
        None => scanned,
    }
}
