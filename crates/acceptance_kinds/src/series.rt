// Series: every field damaged in turn, compared and taken over.
use crate::rows::{Comparison, Damage, record_of, try_compared, try_damaged};
use fields::fault::FieldFault::{NotAllowed, NotEqual, NotOfType};
use kinds::kind::Kind;
use kinds::order::comes_later;
use kinds::series::Series;
use std::test::Fail;
use trials::rows::overwrite;

const ROW: &[u8; 73] = b"0081013010300711501Wien Hbf         00720002Salzburg Hbf     011122+0B0S0";

static DAMAGED: [Damage; 42] = [
    (1, b"0082", Some(NotEqual(1))),
    (5, b"0130A", Some(NotOfType(2))),
    (10, b"3", Some(NotAllowed(3))),
    (11, b"1", None),
    (11, b"0", Some(NotAllowed(4))),
    (11, b"4", Some(NotAllowed(4))),
    (11, b" ", Some(NotOfType(4))),
    (12, b"3", None),
    (12, b"1", Some(NotAllowed(5))),
    (13, b"0711 ", Some(NotOfType(6))),
    (18, b"  ", None),
    (18, b" 1", Some(NotOfType(7))),
    (20, b"W\xfc", None),
    (20, b" W", Some(NotOfType(8))),
    (37, b"3", None),
    (37, b"2", Some(NotAllowed(9))),
    (38, b"     ", Some(NotOfType(10))),
    (43, b"0 ", Some(NotOfType(11))),
    (43, b"  ", None),
    (45, b"                 ", Some(NotOfType(12))),
    (62, b"3", None),
    (62, b"x", Some(NotOfType(13))),
    (63, b" ", Some(NotOfType(14))),
    (63, b"0", None),
    (64, b"  ", None),
    (64, b" 1", Some(NotOfType(15))),
    (66, b"  ", None),
    (66, b"1 ", Some(NotOfType(16))),
    (68, b" ", None),
    (68, b"-", Some(NotAllowed(17))),
    (68, b"\x7f", Some(NotOfType(17))),
    (69, b"3", None),
    (69, b"1", Some(NotAllowed(18))),
    (70, b" ", None),
    (70, b"S", Some(NotAllowed(19))),
    (71, b"3", None),
    (71, b" ", Some(NotOfType(20))),
    (72, b" ", None),
    (72, b"B", Some(NotAllowed(21))),
    (73, b"3", None),
    (73, b"4", Some(NotAllowed(22))),
    (10, b"1", None),
];

#[test]
fn damaged_rows(rt: HostRuntime) {
    try_damaged::<Series, _>(&rt, ROW, &DAMAGED);
}

static COMPARED: [Comparison; 36] = [
    (10, b"0", 10, b"0", None),
    (11, b"1", 12, b"3", None),
    (11, b"1", 12, b"0", Some(5)),
    (12, b"3", 12, b"3", Some(5)),
    (13, b"07116", 37, b"3", None),
    (18, b"03", 37, b"3", None),
    (20, b"Wean", 37, b"3", None),
    (20, b"Wean", 62, b"3", Some(9)),
    (13, b"07116", 37, b"0", Some(9)),
    (18, b"03", 37, b"0", Some(9)),
    (38, b"07201", 62, b"3", None),
    (43, b"  ", 62, b"0", Some(13)),
    (45, b"S", 62, b"3", Some(13)),
    (63, b"2", 69, b"3", None),
    (64, b"12", 69, b"0", Some(18)),
    (66, b"23", 69, b"0", Some(18)),
    (68, b" ", 69, b"3", None),
    (68, b" ", 69, b"0", Some(18)),
    (70, b" ", 71, b"3", None),
    (70, b" ", 71, b"0", Some(20)),
    (72, b" ", 73, b"0", Some(22)),
    (73, b"3", 73, b"3", Some(22)),
    (10, b"2", 10, b"2", None),
    (10, b"2", 11, b"2", Some(4)),
    (10, b"2", 13, b"07116", Some(6)),
    (10, b"2", 18, b"  ", Some(7)),
    (10, b"2", 20, b"X", Some(8)),
    (10, b"2", 38, b"1", Some(10)),
    (10, b"2", 43, b"9", Some(11)),
    (10, b"2", 45, b"X", Some(12)),
    (10, b"2", 63, b"9", Some(14)),
    (10, b"2", 64, b"99", Some(15)),
    (10, b"2", 66, b"99", Some(16)),
    (10, b"2", 68, b" ", Some(17)),
    (10, b"2", 70, b" ", Some(19)),
    (10, b"2", 72, b" ", Some(21)),
];

#[test]
fn compared(rt: HostRuntime) {
    try_compared::<Series, _>(&rt, ROW, &COMPARED);
}

#[test]
fn values(rt: HostRuntime) -> Result<(), Fail> {
    let heap = rt.alloc();
    let series = record_of::<Series>(ROW);
    assert_eq!(rt; series.number(), 1301);
    let told = format!(in heap; "{}", series.told())?;
    assert!(rt; told.as_str() == "3|7115|1|Wien Hbf|7200|2|Salzburg Hbf|1|11|22|+|B|S");
    let mut row = *ROW;
    overwrite(&mut row, 63, b"9    03 0 0");
    let newer = record_of::<Series>(&row);
    let taken = format!(in heap; "{}", newer.take_over(&series.told()))?;
    assert!(rt; taken.as_str() == "3|7115|1|Wien Hbf|7200|2|Salzburg Hbf|1|11|22|+|B|S");
    overwrite(&mut row, 63, b"9     3 0 0");
    let newer = record_of::<Series>(&row);
    let taken = format!(in heap; "{}", newer.take_over(&series.told()))?;
    assert!(rt; taken.as_str() == "3|7115|1|Wien Hbf|7200|2|Salzburg Hbf|9|0|0||B|S");
    Ok(())
}

// Series stand by type, the two designations and the route number, in turn.
#[test]
fn file_order(rt: HostRuntime) {
    let key = record_of::<Series>(ROW).order();
    assert!(rt; !comes_later(&key, &key));
    let cases: [(usize, &[u8]); 5] = [
        (11, b"2"),
        (20, b"Vien"),
        (45, b"Salzburg H"),
        (45, b"R"),
        (63, b"0"),
    ];
    for (column, text) in cases {
        let mut row = *ROW;
        overwrite(&mut row, column, text);
        if column == 45 && text.len() > 1 {
            overwrite(&mut row, 55, b"       ");
        }
        let lower = record_of::<Series>(&row).order();
        assert!(rt; comes_later(&key, &lower) && !comes_later(&lower, &key));
    }
    // a lower route number does not outweigh a later designation
    let mut row = *ROW;
    overwrite(&mut row, 45, b"T");
    overwrite(&mut row, 63, b"0");
    assert!(rt; comes_later(&record_of::<Series>(&row).order(), &key));
}
