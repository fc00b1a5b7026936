// Fare tables: every field damaged in turn, compared and taken over.
use crate::rows::{Comparison, Damage, record_of, try_compared, try_damaged};
use fields::fault::FieldFault::{NotAllowed, NotEqual, NotOfType};
use kinds::fare_table::FareTable;
use kinds::kind::Kind;
use std::test::Fail;
use trials::rows::overwrite;

const ROW: &[u8; 207] =
    b"0081100001Normalpreis                   Plein tarif                   Normalpreis                   Full fare                                                   0EUR0  10        100000811001                  ";

static DAMAGED: [Damage; 38] = [
    (1, b"0082", Some(NotEqual(1))),
    (5, b"0999", Some(NotAllowed(2))),
    (5, b"1001", Some(NotEqual(20))),
    (5, b"100 ", Some(NotOfType(2))),
    (9, b"2", None),
    (9, b"3", Some(NotAllowed(3))),
    (10, b"3", None),
    (10, b"0", Some(NotAllowed(4))),
    (10, b" ", Some(NotOfType(4))),
    (11, b" N", Some(NotOfType(5))),
    (11, b"\xc4", None),
    (41, b"                              ", None),
    (41, b" a", Some(NotOfType(6))),
    (71, b"                              ", None),
    (71, b"a\x80", Some(NotOfType(7))),
    (101, b"                              ", None),
    (101, b"\x00", Some(NotOfType(8))),
    (131, b"\x00\x01", None),
    (161, b"3", None),
    (161, b"1", Some(NotAllowed(10))),
    (162, b"eur", Some(NotAllowed(11))),
    (162, b"EU ", Some(NotAllowed(11))),
    (162, b" EU", Some(NotOfType(11))),
    (165, b"3", None),
    (165, b"x", Some(NotOfType(12))),
    (168, b"0", None),
    (168, b"2", Some(NotAllowed(14))),
    (168, b" ", Some(NotOfType(14))),
    (169, b"3", None),
    (169, b"7", Some(NotAllowed(15))),
    (178, b"10010081", Some(NotEqual(20))),
    (178, b" 0000081", Some(NotOfType(20))),
    (178, b"10000082", Some(NotEqual(20))),
    (186, b"    ", None),
    (186, b"0000", None),
    (186, b"0999", Some(NotAllowed(21))),
    (186, b"1   ", Some(NotOfType(21))),
    (9, b"1", None),
];

#[test]
fn damaged_rows(rt: HostRuntime) {
    try_damaged::<FareTable, _>(&rt, ROW, &DAMAGED);
}

static COMPARED: [Comparison; 25] = [
    (9, b"0", 9, b"0", None),
    (10, b"2", 9, b"0", Some(4)),
    (10, b"2", 161, b"3", Some(4)),
    (11, b"n", 161, b"3", None),
    (11, b"n", 9, b"0", Some(10)),
    (41, b"                              ", 161, b"3", None),
    (41, b"                              ", 9, b"0", Some(10)),
    (71, b"M", 9, b"0", Some(10)),
    (101, b"G", 9, b"0", Some(10)),
    (161, b"3", 161, b"3", Some(10)),
    (162, b"CHF", 165, b"3", None),
    (162, b"CHF", 9, b"0", Some(12)),
    (165, b"3", 165, b"3", Some(12)),
    (168, b"0", 169, b"3", None),
    (168, b"0", 9, b"0", Some(15)),
    (186, b"    ", 9, b"0", None),
    (9, b"2", 9, b"2", None),
    (9, b"2", 10, b"2", Some(4)),
    (9, b"2", 11, b"n", Some(5)),
    (9, b"2", 41, b"x", Some(6)),
    (9, b"2", 71, b"x", Some(7)),
    (9, b"2", 101, b"x", Some(8)),
    (9, b"2", 162, b"CHF", Some(11)),
    (9, b"2", 168, b"0", Some(14)),
    (9, b"2", 186, b"2000", None),
];

#[test]
fn compared(rt: HostRuntime) {
    try_compared::<FareTable, _>(&rt, ROW, &COMPARED);
}

#[test]
fn values(rt: HostRuntime) -> Result<(), Fail> {
    let heap = rt.alloc();
    let table = record_of::<FareTable>(ROW);
    assert_eq!(rt; table.number(), 1000);
    assert_eq!(rt; table.replaces, 1001);
    let told = format!(in heap; "{}", table.told())?;
    assert!(rt; told.as_str() == "1|Normalpreis|Plein tarif|Normalpreis|Full fare|EUR|1");
    let mut row = *ROW;
    overwrite(&mut row, 41, b"                              ");
    overwrite(&mut row, 168, b"03");
    let newer = record_of::<FareTable>(&row);
    let taken = format!(in heap; "{}", newer.take_over(&table.told()))?;
    assert!(rt; taken.as_str() == "1|Normalpreis|Plein tarif|Normalpreis|Full fare|EUR|0");
    overwrite(&mut row, 161, b"3");
    let newer = record_of::<FareTable>(&row);
    let taken = format!(in heap; "{}", newer.take_over(&table.told()))?;
    assert!(rt; taken.as_str() == "1|Normalpreis||Normalpreis|Full fare|EUR|0");
    Ok(())
}
