// Reading a whole buffer: its head, the rows of its three files, and its series beside its stations.
ghost use Rattle.std.specs.Prelude.{◌≡◌, ◌≤◌, min, true, length, take, drop, is_ok, Some, None, MatchResult};
ghost use Rattle.deliveries.specs.Delivery.{RowsOf, delivery_fault, in_file, rows_fault, series_start, supplier, table_start};
ghost use Rattle.deliveries.specs.Head.{Whole};
ghost use Rattle.fields.specs.Bytes.{columns, value};
ghost use Rattle.files.specs.Files.{Indexed, SoundRows, file_fault};
ghost use Rattle.files.specs.Rows.{row_in};
ghost use Rattle.indexes.specs.Places.{SortedPlaces};
ghost use Rattle.std.specs.Cmp.{IsTotalOrder};
ghost use Rattle.std.specs.Result.{result_err};

use crate::across::Stations;
use crate::fault::DeliveryFault;
use crate::head::{Extent, HEAD_LENGTH, Head, read_head};
use files::reading::{MOST_ROWS, read_file};
use files::rows::Rows;
use indexes::Place;
use kinds::fare_table::FareTable;
use kinds::kind::Kind;
use kinds::series::Series;
use kinds::station::Station;

// The rows of a file that begins after so many bytes.
fn rows_from<'a>(bytes: &'a [u8], start: usize, extent: &Extent, supplier: u32) -> Rows<'a>
    ensures bytes { result.bytes.now ≡ drop start bytes.now }
    ensures length { result.length ≡ extent.now.length }
    ensures supplier { result.supplier ≡ supplier }
{
    let start = start.min(bytes.len());
    Rows {
        bytes: &bytes[start..],
        length: extent.length as usize,
        supplier,
    }
}

// The rows of a delivery's three files.
#[derive(Clone, Copy)]
pub struct Files<'a> {
    pub stations: Rows<'a>,
    pub series: Rows<'a>,
    pub tables: Rows<'a>,
}

#[tactic(auto, using(crate::proofs::Heads::small))]
pub(crate) fn files_in<'a>(bytes: &'a [u8], head: &Head) -> Files<'a>
    requires { Whole bytes.now head.now }
    ensures stations { RowsOf bytes.now 47 (value (columns 25 27 bytes.now)) result.stations }
    ensures series { RowsOf bytes.now (series_start bytes.now) (value (columns 28 30 bytes.now)) result.series }
    ensures tables { RowsOf bytes.now (table_start bytes.now) (value (columns 31 33 bytes.now)) result.tables }
{
    let series_start = HEAD_LENGTH + head.stations.size() as usize;
    let table_start = series_start + head.series.size() as usize;
    Files {
        stations: rows_from(bytes, HEAD_LENGTH, &head.stations, head.supplier),
        series: rows_from(bytes, series_start, &head.series, head.supplier),
        tables: rows_from(bytes, table_start, &head.tables, head.supplier),
    }
}

// Reads a file, and answers its first fault with the file's letter.
fn check_file<K: Kind>(
    rows: &Rows<'_>,
    count: u32,
    places: &mut [Place<K::Number>],
) -> Result<(), DeliveryFault>
    ensures first { result_err result ≡ in_file K.Kind.LETTER (file_fault K.Kind.meaning rows.now.supplier (row_in rows.now) (min count (min (length places.old) 4096))) }
    ensures sound { is_ok result ≡ true → SoundRows K.Kind.meaning rows.now.supplier (row_in rows.now) (min count (min (length places.old) 4096)) }
    ensures index { is_ok result ≡ true → count ≤ min (length places.old) 4096 → Indexed K.Kind.meaning rows.now.supplier (row_in rows.now) count (take count places.new) × ((o : IsTotalOrder K.Number.Ord.cmp) → SortedPlaces o (take count places.new)) }
{
    read_file::<K>(rows, count, places).map_err(|fault| DeliveryFault::Row(K::LETTER, fault))
}

// The first fault of the rows, and then of the series beside the stations. That the buffer bears the head is asked for here
// and in `files_in` alone: a struct with that fact would be made in one place and read in these two.
fn check_rows(bytes: &[u8], head: &Head) -> Result<(), DeliveryFault>
    requires { Whole bytes.now head.now }
    ensures { result_err result ≡ rows_fault bytes.now }
{
    // on the stack, since the library has no heap
    let empty = Place { number: 0, row: 0 };
    let mut stations = [empty; MOST_ROWS];
    let mut others = [empty; MOST_ROWS];
    let files = files_in(bytes, head);
    check_file::<Station>(&files.stations, head.stations.rows, &mut stations)?;
    check_file::<Series>(&files.series, head.series.rows, &mut others)?;
    check_file::<FareTable>(&files.tables, head.tables.rows, &mut others)?;
    let stations = Stations {
        rows: files.stations,
        places: &stations[..head.stations.rows as usize],
    };
    stations.check_across(&files.series, head.series.rows)
}

// The head of a sound delivery, or the first fault of the buffer.
#[tactic(auto, using(crate::proofs::Verdict::broken_head, crate::proofs::Verdict::kept_head, crate::proofs::Heads::whole))]
pub(crate) fn check(bytes: &[u8]) -> Result<Head, DeliveryFault>
    ensures { MatchResult result (λ h. (delivery_fault bytes.now ≡ None) × Whole bytes.now h) (λ e. delivery_fault bytes.now ≡ Some e) }
{
    let head = read_head(bytes)?;
    check_rows(bytes, &head)?;
    Ok(head)
}
