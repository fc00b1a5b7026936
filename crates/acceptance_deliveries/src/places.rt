// What stands in a place after reading into it.
use crate::cases::edited;
use crate::tests::{SAME, SMALL};
use deliveries::delivery::Delivery;
use kinds::fare_table::FareTable;
use kinds::kind::Kind;
use kinds::series::Series;
use kinds::station::Station;
use std::alloc::{AllocError, Global};
use std::test::Fail;

const READ: &str = "\
supplier 0081 day 20260101 version 01 stations 3 series 3 tables 3; \
Station 00001|Place 00001|Route 00001|42; \
3|99196|1|Place 00001|91277|2|Place 00002|1|11|22|+|B|S; \
1|Tarif 1001|Prix 1001|Preis 1001|Fare 1001|EUR|1";

// The head and the second record of each file, after both deliveries were read into the place.
fn read_both<'a>(
    heap: Global,
    place: &mut Delivery<'a>,
    sound: &'a [u8],
    damaged: &'a [u8],
) -> Result<String, AllocError> {
    let _ = place.read(sound);
    let _ = place.read(damaged);
    let files = place.files();
    format!(in heap;
        "{}; {}; {}; {}",
        place.head(),
        files.stations.record::<Station>(1).told,
        files.series.record::<Series>(1).told,
        files.tables.record::<FareTable>(1).told
    )
}

#[test]
fn earlier_reading_stays(rt: HostRuntime) -> Result<(), Fail> {
    let heap = rt.alloc();
    let sound = edited(heap, SMALL, SAME).ok_or("no delivery")?;
    let damaged = edited(heap, SMALL, "S    3  38 '00000'; H    1  46 '02'").ok_or("no delivery")?;
    let mut place = Delivery::empty();
    let shown = read_both(heap, &mut place, sound.as_slice(), damaged.as_slice())?;
    assert_eq!(rt; shown.as_str(), READ);
    Ok(())
}

#[test]
fn empty_place(rt: HostRuntime) -> Result<(), Fail> {
    let head = Delivery::empty().head();
    assert_eq!(rt;
        format!(in rt.alloc(); "{head}")?.as_str(),
        "supplier 0000 day 20000101 version 01 stations 0 series 0 tables 0"
    );
    Ok(())
}
