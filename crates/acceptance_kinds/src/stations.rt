// Stations: every field damaged in turn, compared and taken over.
use crate::rows::{Comparison, Damage, fault_of, record_of, try_compared, try_damaged};
use fields::fault::FieldFault::{NotAllowed, NotEqual, NotOfType};
use kinds::kind::Kind;
use kinds::station::Station;
use std::test::Fail;
use trials::rows::overwrite;

const ROW: &[u8; 92] =
    b"008107115012345Wien Hauptbahnhof                  0Wien Hbf         0Wien             000420";

static DAMAGED: [Damage; 38] = [
    (1, b"0081", None),
    (1, b"0082", Some(NotEqual(1))),
    (1, b" 081", Some(NotOfType(1))),
    (1, b"    ", Some(NotOfType(1))),
    (5, b"99999", None),
    (5, b"0711 ", Some(NotOfType(2))),
    (10, b"2", None),
    (10, b"3", Some(NotAllowed(3))),
    (10, b" ", Some(NotOfType(3))),
    (11, b"!!!!!", None),
    (16, b" Wien", Some(NotOfType(5))),
    (
        16,
        b"                                   ",
        Some(NotOfType(5)),
    ),
    (16, b"\xd6sterreich", None),
    (16, b"W\x7f", Some(NotOfType(5))),
    (16, b"W\x9f", Some(NotOfType(5))),
    (51, b"3", None),
    (51, b"1", Some(NotAllowed(6))),
    (51, b" ", Some(NotOfType(6))),
    (52, b"W\xfc", Some(NotAllowed(7))),
    (52, b"W\x80", Some(NotOfType(7))),
    (52, b"                 ", Some(NotOfType(7))),
    (69, b"3", None),
    (69, b"2", Some(NotAllowed(8))),
    (69, b" ", Some(NotOfType(8))),
    (70, b"                 ", None),
    (70, b"\xff", None),
    (70, b"  A", Some(NotOfType(9))),
    (87, b"3", None),
    (87, b"9", Some(NotAllowed(10))),
    (87, b" ", Some(NotOfType(10))),
    (88, b"    ", None),
    (88, b"0000", None),
    (88, b" 042", Some(NotOfType(11))),
    (92, b" ", None),
    (92, b"3", None),
    (92, b"1", Some(NotAllowed(12))),
    (92, b"x", Some(NotOfType(12))),
    (10, b"1\x21\x21\x21\x21\x21Wien", None),
];

#[test]
fn damaged_rows(rt: HostRuntime) {
    try_damaged::<Station, _>(&rt, ROW, &DAMAGED);
}

static COMPARED: [Comparison; 18] = [
    (10, b"0", 10, b"0", None),
    (88, b"0043", 92, b"3", None),
    (88, b"0043", 92, b"0", Some(12)),
    (88, b"0042", 92, b"3", Some(12)),
    (16, b"Wean", 51, b"3", None),
    (16, b"Wean", 51, b"0", Some(6)),
    (16, b"Wean", 88, b"0001", Some(6)),
    (52, b"Wean", 69, b"3", None),
    (52, b"Wean", 51, b"3", Some(6)),
    (70, b"W   ", 87, b"3", None),
    (70, b"W   ", 87, b"0", Some(10)),
    (87, b"3", 87, b"3", Some(10)),
    (10, b"2", 10, b"2", None),
    (10, b"2", 16, b"Wean", Some(5)),
    (10, b"2", 52, b"Wean", Some(7)),
    (10, b"2", 70, b"                 ", Some(9)),
    (10, b"2", 88, b"    ", Some(11)),
    (10, b"1", 88, b"0001", None),
];

#[test]
fn compared(rt: HostRuntime) {
    try_compared::<Station, _>(&rt, ROW, &COMPARED);
}

#[test]
fn values(rt: HostRuntime) -> Result<(), Fail> {
    let heap = rt.alloc();
    let station = record_of::<Station>(ROW);
    assert_eq!(rt; station.supplier, 81);
    assert_eq!(rt; station.number(), 7115);
    let told = format!(in heap; "{}", station.told())?;
    assert!(rt; told.as_str() == "Wien Hauptbahnhof|Wien Hbf|Wien|42");
    let mut row = *ROW;
    overwrite(&mut row, 16, b"\xd6sterreich        ");
    overwrite(&mut row, 88, b"0000 ");
    let newer = record_of::<Station>(&row);
    let kept = format!(in heap; "{}", newer.take_over(&station.told()))?;
    assert!(rt; kept.as_str() == "Wien Hauptbahnhof|Wien Hbf|Wien|42");
    overwrite(&mut row, 51, b"3");
    let newer = record_of::<Station>(&row);
    let taken = format!(in heap; "{}", newer.take_over(&station.told()))?;
    assert!(rt; taken.as_str() == "\u{d6}sterreich|Wien Hbf|Wien|42");
    Ok(())
}

// A blank zone counts as 0000.
#[test]
fn blank_zone(rt: HostRuntime) {
    let mut row = *ROW;
    overwrite(&mut row, 88, b"     ");
    let older = record_of::<Station>(&row).told();
    overwrite(&mut row, 88, b"00000");
    assert_eq!(rt; record_of::<Station>(&row).compare(&older), None);
    overwrite(&mut row, 88, b"00003");
    assert_eq!(rt; record_of::<Station>(&row).compare(&older), Some(12));
}

// A row may be longer than its least length, with any bytes there, and not shorter.
#[test]
fn lengths(rt: HostRuntime) {
    let mut row = [0u8; 120];
    overwrite(&mut row, 1, ROW);
    assert_eq!(rt; fault_of::<Station>(&row), None);
    assert_eq!(rt; fault_of::<Station>(&row[0..92]), None);
    assert_eq!(rt; fault_of::<Station>(&row[0..91]), Some(NotOfType(12)));
    assert_eq!(rt; fault_of::<Station>(&row[0..60]), Some(NotOfType(7)));
    assert_eq!(rt; fault_of::<Station>(&[]), Some(NotOfType(1)));
}
