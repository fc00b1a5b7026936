// The tables of cases, tried on deliveries of several sizes.
use crate::cases::try_cases;
use crate::fare_tables::FARE_TABLES;
use crate::firsts::FIRSTS;
use crate::heads::{HEADS, SHORT};
use crate::series::{ACROSS, SERIES};
use crate::sizes::{BLANK, HEADS_READ, LARGEST};
use crate::stations::STATIONS;
use std::test::Fail;

// Three rows in each file, of the least lengths and of the greatest.
pub const SMALL: &str = "30000111600003000030000309207320700812026010101";

const WIDE: &str = "30000369300003000030000351251220700812026010101";

// An edit that changes nothing.
pub const SAME: &str = "H    1   1 '3'";

#[test]
fn heads(rt: HostRuntime) -> Result<(), Fail> {
    let heap = rt.alloc();
    try_cases(&rt, heap, "3", SHORT)?;
    try_cases(
        &rt,
        heap,
        "3000000000000000000000000920732070081202601010",
        SHORT,
    )?;
    try_cases(&rt, heap, SMALL, HEADS)
}

#[test]
fn rows(rt: HostRuntime) -> Result<(), Fail> {
    let heap = rt.alloc();
    for cases in [STATIONS, SERIES, ACROSS, FARE_TABLES, FIRSTS, BLANK] {
        try_cases(&rt, heap, SMALL, cases)?;
        try_cases(&rt, heap, WIDE, cases)?;
    }
    Ok(())
}

// None and few rows, and the most, of the least lengths and of the greatest.
#[test]
fn sizes(rt: HostRuntime) -> Result<(), Fail> {
    let heap = rt.alloc();
    for head in HEADS_READ.lines() {
        try_cases(&rt, heap, head, "H    1   1 '3' => read")?;
    }
    try_cases(
        &rt,
        heap,
        "30152371204096040960409609207320700812026010101",
        LARGEST,
    )?;
    try_cases(
        &rt,
        heap,
        "30504217604096040960409651251220700812026010101",
        LARGEST,
    )
}
