// Deliveries as lines of text: supplier, first day and version, and each row after a stroke.
//
// A row has its file's letter, its number and its key flag, and a series its two stations. All its other columns follow
// from these, but for edits after a colon: a column, counted from 1, and the text that is written from there on.
// A row `G 00003-00100/7 1` stands for one row with each seventh number from 3 to 100.
use fields::bytes::number_in;
use std::alloc::{AllocError, Global};
use trials::rows::add_row;

// Rows have digits in place of these signs: ~ the supplier, # the number, ^ the number of a fare table, ! the key flag,
// @ and & the stations of a series.
pub const STATION: &str =
    "~~~~#####!     Station #####                      0Place #####      0Route #####      000420";

pub const SERIES: &str =
    "~~~~#####!30@@@@@01Place @@@@@      0&&&&&02Place &&&&&      011122+0B0S0";

pub const TABLE: &str =
    "~~~~^^^^!1Tarif ^^^^                    Prix ^^^^                     Preis ^^^^                    Fare ^^^^                                                   0EUR0  10        ^^^^~~~~1001                  ";

// What the signs stand for.
#[derive(Clone, Copy)]
pub struct Signs {
    pub supplier: u32,
    pub number: u32,
    pub key_flag: u32,
    pub departure: u32,
    pub destination: u32,
}

impl Signs {
    // Five digits, of which a row has as many as it has signs.
    fn value(&self, sign: u8) -> Option<u32> {
        match sign {
            b'#' => Some(self.number),
            b'^' => Some(self.number.wrapping_mul(10)),
            b'~' => Some(self.supplier.wrapping_mul(10)),
            b'!' => Some(self.key_flag.wrapping_mul(10000)),
            b'@' => Some(self.departure),
            b'&' => Some(self.destination),
            _ => None,
        }
    }

    // A text with digits in place of its signs.
    pub fn fill(&self, heap: Global, text: &str) -> Result<Vec<u8>, AllocError> {
        let mut bytes = Vec::new(heap);
        add_row(&mut bytes, text, |sign| self.value(sign))?;
        Ok(bytes)
    }
}

// Numbers at equal steps. They are counted, and not a range by `step_by`, over which a loop asks for a measure.
#[derive(Clone, Copy)]
pub struct Numbers {
    first: u32,
    step: u32,
    pub count: u32,
}

impl Numbers {
    // One number, `00003`, or several, `00003-00100/7`.
    pub fn read(text: &[u8]) -> Numbers {
        let first = number_in(text, 1, 5);
        let last = number_in(text, 7, 11);
        let step = number_in(text, 13, 15);
        Numbers {
            first,
            step,
            count: (last.saturating_sub(first) / step.max(1)).saturating_add(1),
        }
    }

    pub fn at(&self, k: u32) -> u32 {
        self.first.wrapping_add(self.step.wrapping_mul(k))
    }
}

fn edit(row: &mut Vec<u8>, edits: &str) -> Option<()> {
    if edits.is_empty() {
        return Some(());
    }
    for one in edits.split(", ") {
        let (column, text) = one.split_once(" ")?;
        let start = (number_in(column.as_bytes(), 1, 3) as usize).checked_sub(1)?;
        let end = start.checked_add(text.len())?;
        row.as_mut_slice()
            .get_mut(start..end)?
            .copy_from_slice(text.as_bytes());
    }
    Some(())
}

fn word_number(word: Option<&str>) -> u32 {
    number_in(word.unwrap_or("0").as_bytes(), 1, 5)
}

fn filled(heap: Global, letter: &[u8], signs: &Signs) -> Option<Vec<u8>> {
    let row = match letter {
        [b'G'] => STATION,
        [b'S'] => SERIES,
        [b'P'] => TABLE,
        _ => return None,
    };
    signs.fill(heap, row).ok()
}

// Adds what a row stands for, and answers how many rows that are.
fn add_rows(heap: Global, body: &mut Vec<u8>, supplier: u32, row: &str) -> Option<u32> {
    let (named, edits) = row.split_once(": ").unwrap_or((row, ""));
    let mut words = named.split(" ");
    let letter = words.next()?.as_bytes();
    let numbers = Numbers::read(words.next()?.as_bytes());
    let mut signs = Signs {
        supplier,
        number: 0,
        key_flag: word_number(words.next()),
        departure: word_number(words.next()),
        destination: word_number(words.next()),
    };
    for k in 0..numbers.count {
        signs.number = numbers.at(k);
        let mut row = filled(heap, letter, &signs)?;
        edit(&mut row, edits)?;
        body.extend_from_slice(row.as_slice()).ok()?;
    }
    Some(numbers.count)
}

// The rows of a delivery, and how many there are in each file.
fn add_body(
    heap: Global,
    body: &mut Vec<u8>,
    supplier: u32,
    rows: &str,
) -> Option<(u32, u32, u32)> {
    let (mut stations, mut series, mut tables) = (0u32, 0u32, 0u32);
    if rows.is_empty() {
        return Some((0, 0, 0));
    }
    for row in rows.split(" / ") {
        let count = add_rows(heap, body, supplier, row)?;
        match row.as_bytes() {
            [b'G', ..] => stations = stations.wrapping_add(count),
            [b'S', ..] => series = series.wrapping_add(count),
            _ => tables = tables.wrapping_add(count),
        }
    }
    Some((stations, series, tables))
}

// The bytes of a delivery; none where its line is not understood.
pub fn delivery(heap: Global, line: &str) -> Option<Vec<u8>> {
    let (head, rows) = line.split_once(" / ").unwrap_or((line, ""));
    let mut body = Vec::new(heap);
    let (stations, series, tables) = add_body(
        heap,
        &mut body,
        number_in(head.as_bytes(), 1, 4),
        rows,
    )?;
    let size = body.len();
    let counts = format!(in heap; "3{size:08}{stations:05}{series:05}{tables:05}092073207").ok()?;
    let mut bytes = Vec::from_slice(heap, counts.as_bytes()).ok()?;
    bytes
        .extend(head.bytes().filter(|byte| *byte != b' '))
        .ok()?;
    bytes.extend_from_slice(body.as_slice()).ok()?;
    Some(bytes)
}
