// Questions to a book, and its answers as text.
use crate::sent::{SERIES, STATION, Signs, TABLE};
use books::book::Book;
use books::find::{Booked, Found};
use fields::bytes::number_in;
use kinds::fare_table::FareTable;
use kinds::kind::Kind;
use kinds::series::Series;
use kinds::station::Station;
use registers::entry::Id;
use std::alloc::{AllocError, Global};
use std::fmt::Display;

// What the rows say whose records are lent to `find`; no script has such a row.
const LENT: Signs = Signs {
    supplier: 9999,
    number: 99999,
    key_flag: 0,
    departure: 88888,
    destination: 77777,
};

// How a number stands, and what the lent record tells then.
fn find_kind<K: Booked<Number = u32> + Drop>(
    heap: Global,
    book: &Book<'_>,
    row: &str,
    id: Id<u32>,
) -> Result<String, AllocError>
where
    K::Told: Display + Drop,
{
    let mut record = K::values(0, LENT.fill(heap, row)?.as_slice()).told();
    let lent = format!(in heap; "{record}")?;
    let found = book.find::<K>(id.supplier, id.number, &mut record);
    let told = format!(in heap; "{record}")?;
    let told = if told.as_str() == lent.as_str() {
        "as lent"
    } else {
        told.as_str()
    };
    match found {
        Found::Live => format!(in heap; "live {told}"),
        Found::Retired((year, free)) => format!(in heap; "retired {year} {free} {told}"),
        Found::Unknown => format!(in heap; "unknown {told}"),
    }
}

// How a number of a supplier stands, of the kind with this letter.
pub fn find(
    heap: Global,
    book: &Book<'_>,
    letter: &[u8],
    id: Id<u32>,
) -> Result<String, AllocError> {
    match letter {
        [b'G'] => find_kind::<Station>(heap, book, STATION, id),
        [b'S'] => find_kind::<Series>(heap, book, SERIES, id),
        _ => find_kind::<FareTable>(heap, book, TABLE, id),
    }
}

// The series of a question as `join 0081 00001 00002`.
pub fn join(heap: Global, book: &Book<'_>, question: &[u8]) -> Result<String, AllocError> {
    let supplier = number_in(question, 6, 9);
    let one = number_in(question, 11, 15);
    let other = number_in(question, 17, 21);
    match book.join(supplier, one, other) {
        Some(number) => format!(in heap; "{number}"),
        None => format!(in heap; "none"),
    }
}
