// The demonstration: heads, rows and whole deliveries are read, refused, compared and taken over, a line a step.
use crate::reading::Reading;
use crate::status::Status;
use kinds::kind::Kind;
use kinds::station::Station;
use std::io;

// A delivery of supplier 0081 without rows, first day 1 January 2026, version 01.
const EMPTY: &str = "30000000000000000000000009207320700812026010101";
// The same with a station row length of 91.
const SHORT_ROWS: &str = "30000000000000000000000009107320700812026010101";
// The same on 29 February 2100, which is no day.
const NO_DAY: &str = "30000000000000000000000009207320700812100022901";
// The same with one station promised and no row sent.
const NO_ROW: &str = "30000009200001000000000009207320700812026010101";

// Station 07115 as it was first sent.
const FIRST: &str =
    "0081071151     Wien Hauptbahnhof                  0Wien Hbf         0                 0    0";
// In a new zone, and flagged so.
const FLAGGED: &str =
    "0081071150     Wien Hauptbahnhof                  0Wien Hbf         0                 000423";
// In a new zone again, with no flag.
const UNFLAGGED: &str =
    "0081071150     Wien Hauptbahnhof                  0Wien Hbf         0                 000430";
// With a name that begins with a blank.
const DAMAGED: &str =
    "0081071150      ien Hauptbahnhof                  0Wien Hbf         0                 000420";

// A station and a series from it that leave together, beside a station that stays.
#[rattlefmt::skip]
const LEAVING: &str = "\
30000025700002000010000009207320700812026010102\
0081071200     Linz Hauptbahnhof                  0Linz Hbf         0                 0    0\
0081071152     Wien Hauptbahnhof                  0Wien Hbf         0                 0    0\
00810001223007115  Wien Hbf         007120  Linz Hbf         01    +0 0 0";
// The same, and the series stays.
#[rattlefmt::skip]
const LEFT_BEHIND: &str = "\
30000025700002000010000009207320700812026010102\
0081071200     Linz Hauptbahnhof                  0Linz Hbf         0                 0    0\
0081071152     Wien Hauptbahnhof                  0Wien Hbf         0                 0    0\
00810001203007115  Wien Hbf         007120  Linz Hbf         01    +0 0 0";

// What becomes of a delivery.
fn answer(rt: &HostRuntime, delivery: &str) -> io::Result<()> {
    println!(rt; "  {}", Reading::of(delivery.as_bytes()))
}

fn heads(rt: &HostRuntime) -> io::Result<()> {
    println!(rt;
        "A carrier sends its tariff data as one file, a delivery, that begins with a head of 47 bytes."
    )?;
    let told = [
        (
            "Supplier 0081 sends its first delivery of 2026, still without rows:",
            EMPTY,
        ),
        (
            "Its next one claims station rows of 91 bytes, one too few:",
            SHORT_ROWS,
        ),
        (
            "This one begins on 29 February 2100, which is no day of the calendar:",
            NO_DAY,
        ),
        (
            "This one promises a station row of 92 bytes that is not there:",
            NO_ROW,
        ),
        (
            "And this one ends in the middle of its head:",
            &EMPTY[0..30],
        ),
    ];
    for (text, delivery) in told {
        println!(rt; "{text}")?;
        println!(rt; "  {delivery}")?;
        answer(rt, delivery)?;
    }
    Ok(())
}

fn files(rt: &HostRuntime) -> io::Result<()> {
    let told = [
        (
            "A whole delivery: Wien Hbf and the series from it to Linz Hbf leave together, and Linz Hbf stays:",
            LEAVING,
        ),
        (
            "Had the series stayed, it would depart from a station that no buyer holds any more:",
            LEFT_BEHIND,
        ),
    ];
    for (text, delivery) in told {
        println!(rt; "{text}")?;
        answer(rt, delivery)?;
    }
    Ok(())
}

// The station in a row of supplier 0081; where the row is refused, tells why, and answers none.
fn tell_row(rt: &HostRuntime, row: &str) -> io::Result<Option<Station>> {
    let mut station = Station::values(0, &[]);
    match station.read(81, row.as_bytes()) {
        Ok(()) => Ok(Some(station)),
        Err(fault) => {
            println!(rt; "  refused {fault}")?;
            Ok(None)
        }
    }
}

fn tell_flags(rt: &HostRuntime, fault: Option<u8>) -> io::Result<()> {
    match fault {
        None => println!(rt; "  its flags are true"),
        Some(field) => println!(rt; "  its flags are not true, first at field {field}"),
    }
}

fn rows(rt: &HostRuntime) -> io::Result<()> {
    println!(rt;
        "The rows follow. This one brings a new station, and a buyer who loads it holds all its fields:"
    )?;
    let Some(station) = tell_row(rt, FIRST)? else {
        return Ok(());
    };
    let mut held = station.told();
    println!(rt; "  {held}")?;
    let amended = [
        (
            "In the next version the station is in zone 42, and the zone's flag says so:",
            FLAGGED,
        ),
        (
            "Then it moves to zone 43 and no flag says so. A buyer would still hold zone 42:",
            UNFLAGGED,
        ),
    ];
    for (text, row) in amended {
        println!(rt; "{text}")?;
        if let Some(station) = tell_row(rt, row)? {
            tell_flags(rt, station.compare(&held))?;
            held = station.take_over(&held);
            println!(rt; "  {held}")?;
        }
    }
    println!(rt; "A row whose name begins with a blank is not read at all:")?;
    let _ = tell_row(rt, DAMAGED)?;
    Ok(())
}

pub fn run(rt: &HostRuntime) -> io::Result<Status> {
    heads(rt)?;
    rows(rt)?;
    files(rt)?;
    println!(rt;
        "Each refusal tells its number and place, so that the carrier can repair the file."
    )?;
    Ok(Status::Done)
}
