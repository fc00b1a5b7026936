// Sound deliveries of supplier 0081, of any size: as many rows, and as long, as a head says.
use fields::bytes::number_in;
use std::alloc::{AllocError, Global};
use trials::rows::add_row;

// A row has digits in place of these signs: # and $ the numbers of a station and of a series, % the row counted from 0,
// @ and & the number and the row of the next station, and ^ the number of a fare table.
const STATION: &str =
    "0081#####0     Station %%%%%                      0Place %%%%%      0Route %%%%%      000420";

const SERIES: &str = "0081$$$$$030#####01Place %%%%%      0@@@@@02Place &&&&&      011122+0B0S0";

const TABLE: &str =
    "0081^^^^01Tarif ^^^^                    Prix ^^^^                     Preis ^^^^                    Fare ^^^^                                                   0EUR0  10        ^^^^00811001                  ";

// What a sign stands for in row k, by its last five digits. Numbers come in no order, and no two are the same.
fn value(sign: u8, k: u32, stations: u32) -> Option<u32> {
    let next = k.wrapping_add(1) % stations.max(1);
    match sign {
        b'#' => Some(k.wrapping_mul(92081).wrapping_add(7115)),
        b'$' => Some(k.wrapping_mul(92081).wrapping_add(12)),
        b'@' => Some(next.wrapping_mul(92081).wrapping_add(7115)),
        b'%' => Some(k),
        b'&' => Some(next),
        // four signs, so the first four digits
        b'^' => Some(k.wrapping_add(1000).wrapping_mul(10)),
        _ => None,
    }
}

// The head and its rows, with bytes of every value where a row is longer than its last field.
pub fn delivery(heap: Global, head: &str) -> Result<Vec<u8>, AllocError> {
    let mut bytes = Vec::from_slice(heap, head.as_bytes())?;
    let stations = number_in(head.as_bytes(), 10, 14);
    let files = [
        (STATION, stations, number_in(head.as_bytes(), 25, 27)),
        (
            SERIES,
            number_in(head.as_bytes(), 15, 19),
            number_in(head.as_bytes(), 28, 30),
        ),
        (TABLE, number_in(head.as_bytes(), 20, 24), 207),
    ];
    for (row, count, length) in files {
        for k in 0..count {
            add_row(&mut bytes, row, |sign| value(sign, k, stations))?;
            bytes.extend((row.len()..length as usize).map(|column| (column % 256) as u8))?;
        }
    }
    Ok(bytes)
}

// The bytes before a row of the file that a letter names, counted from 1; none before the head.
pub fn row_start(head: &str, letter: &[u8], row: usize) -> usize {
    let stations = number_in(head.as_bytes(), 25, 27) as usize;
    let series = number_in(head.as_bytes(), 28, 30) as usize;
    let series_start = stations
        .wrapping_mul(number_in(head.as_bytes(), 10, 14) as usize)
        .wrapping_add(47);
    let table_start = series
        .wrapping_mul(number_in(head.as_bytes(), 15, 19) as usize)
        .wrapping_add(series_start);
    let (start, length) = match letter {
        [b'G', ..] => (47, stations),
        [b'S', ..] => (series_start, series),
        [b'P', ..] => (table_start, 207),
        _ => (0, 0),
    };
    row.wrapping_sub(1).wrapping_mul(length).wrapping_add(start)
}
