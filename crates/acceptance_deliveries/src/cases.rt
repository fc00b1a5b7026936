// A case is a line: edits of a sound delivery, and after an arrow what is then told of it, or `read`.
//
// An edit has a file's letter, H for the head, a row in columns 3 to 6 and a column in 8 to 10, both counted from 1, and
// in quotes the text that is written from there on. Where a case has the sentence in brackets, it is compared too.
use crate::sent::{delivery, row_start};
use deliveries::delivery::Delivery;
use deliveries::fault::DeliveryFault;
use fields::bytes::number_in;
use std::alloc::Global;
use std::process::Abort;
use std::test::Fail;
use trials::lines::comparable;

// Makes one edit, a byte for each character, as in ISO-8859-1; none where there is no such place.
fn edit(bytes: &mut Vec<u8>, head: &str, edit: &str) -> Option<()> {
    let row = number_in(edit.as_bytes(), 3, 6) as usize;
    let column = number_in(edit.as_bytes(), 8, 10) as usize;
    let start = row_start(head, edit.as_bytes(), row)
        .wrapping_add(column)
        .wrapping_sub(1);
    let text = edit.chars().skip(11).filter(|character| *character != '\'');
    let mut places = bytes.as_mut_slice().get_mut(start..)?.iter_mut();
    for character in text {
        *places.next()? = u8::try_from(u32::from(character)).unwrap_or(0);
    }
    Some(())
}

// The delivery of a head, with these edits.
pub fn edited(heap: Global, head: &str, edits: &str) -> Option<Vec<u8>> {
    let mut bytes = delivery(heap, head).ok()?;
    for one in edits.split("; ") {
        edit(&mut bytes, head, one)?;
    }
    Some(bytes)
}

// The fault of a delivery; none where it is read, or where a refusal leaves the place no longer empty.
fn fault_of(bytes: &[u8]) -> Option<DeliveryFault> {
    let mut place = Delivery::empty();
    place
        .read(bytes)
        .err()
        .filter(|_| place.head().supplier == 0)
}

// What is told of the delivery of a head with these edits.
fn told(heap: Global, head: &str, edits: &str) -> Option<String> {
    let bytes = edited(heap, head, edits)?;
    match fault_of(bytes.as_slice()) {
        None => format!(in heap; "read").ok(),
        Some(fault) => format!(in heap; "{fault}").ok(),
    }
}

// Tries each case on the delivery of a head.
pub fn try_cases(rt: &impl Abort, heap: Global, head: &str, cases: &str) -> Result<(), Fail> {
    for case in cases.lines() {
        let (edits, expected) = case.split_once(" => ").ok_or("a case expects nothing")?;
        let told = told(heap, head, edits).ok_or("an edit names no place")?;
        assert_eq!(rt; comparable(told.as_str(), expected), expected, "{}", case);
    }
    Ok(())
}
