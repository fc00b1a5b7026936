// Carrying out a script: a book is opened, deliveries are read and admitted, records found and stations joined.
ghost use Rattle.registers.specs.declared.entry.Standing.TheVariants.{Retired};
ghost use Rattle.std.specs.Prelude.{◌≡◌};

use crate::reading::Reading;
use crate::script::{Command, FIRST_ROOMS, Letter, Rooms, parse};
use crate::status::Status;
use books::book::Book;
use books::find::{Booked, Found};
use deliveries::delivery::Delivery;
use kinds::fare_table::{FareTable, FareTableTold};
use kinds::kind::Kind;
use kinds::series::{Series, SeriesTold};
use kinds::station::{Station, StationTold};
use registers::entry::{Entry, Id, Standing};
use std::alloc::{AllocError, Global};
use std::fmt::Display;
use std::str::Lines;
use std::{fs, io};

// An entry of a run that no book has filled yet.
pub fn vacant<T: Copy>() -> Entry<u32, T>
    ensures { result ≡ record { id = record { supplier = 0; number = 0 }; standing = Retired 0 } }
{
    Entry {
        id: Id {
            supplier: 0,
            number: 0,
        },
        standing: Standing::Retired(0),
    }
}

// The runs that are lent to a book.
#[derive(Drop)]
struct Runs {
    stations: Vec<Entry<u32, StationTold>>,
    series: Vec<Entry<u32, SeriesTold>>,
    tables: Vec<Entry<u32, FareTableTold>>,
}

impl Runs {
    fn new(heap: Global, rooms: Rooms) -> Result<Runs, AllocError> {
        Ok(Runs {
            stations: vec![in heap; vacant(); rooms.stations]?,
            series: vec![in heap; vacant(); rooms.series]?,
            tables: vec![in heap; vacant(); rooms.tables]?,
        })
    }

    fn book(&mut self) -> Book<'_> {
        Book::open(
            self.stations.as_mut_slice(),
            self.series.as_mut_slice(),
            self.tables.as_mut_slice(),
        )
    }
}

fn read(rt: &HostRuntime, bytes: &[u8]) -> io::Result<()> {
    println!(rt; "{}", Reading::of(bytes))
}

// The runtime and the book stay two parameters of this call and those below: a struct of both would be made in `use_book`
// alone, and be no shorter to pass.
pub fn admit(rt: &HostRuntime, book: &mut Book<'_>, bytes: &[u8]) -> io::Result<()> {
    let mut delivery = Delivery::empty();
    if let Err(fault) = delivery.read(bytes) {
        return println!(rt; "refused {fault}");
    }
    match book.admit(&delivery) {
        Ok(receipt) => println!(rt; "receipt {receipt}"),
        Err(fault) => println!(rt; "refused {fault}"),
    }
}

// How a number of a supplier stands, and what the record tells where it is live.
fn find_kind<K: Booked<Number = u32> + Drop>(
    rt: &HostRuntime,
    book: &Book<'_>,
    id: Id<u32>,
) -> io::Result<()>
where
    K::Told: Display + Drop,
{
    let mut told = K::values(0, &[]).told();
    match book.find::<K>(id.supplier, id.number, &mut told) {
        Found::Live => println!(rt; "live {told}"),
        Found::Retired((year, free)) => println!(rt; "retired {year} free {free}"),
        Found::Unknown => println!(rt; "unknown"),
    }
}

pub fn find(rt: &HostRuntime, book: &Book<'_>, letter: Letter, id: Id<u32>) -> io::Result<()> {
    match letter {
        Letter::Station => find_kind::<Station>(rt, book, id),
        Letter::Series => find_kind::<Series>(rt, book, id),
        Letter::FareTable => find_kind::<FareTable>(rt, book, id),
    }
}

pub fn join(
    rt: &HostRuntime,
    book: &Book<'_>,
    supplier: u32,
    one: u32,
    other: u32,
) -> io::Result<()> {
    match book.join(supplier, one, other) {
        Some(number) => println!(rt; "series {number}"),
        None => println!(rt; "none"),
    }
}

// Takes a step with a file's bytes; where it cannot be read, the line is answered with the reason.
fn with_file<F: FnOnce(&[u8]) -> io::Result<()> + Drop>(
    rt: &HostRuntime,
    line: usize,
    path: &str,
    step: F,
) -> io::Result<Status>
    requires { F.IsAlwaysCallable step }
{
    match fs::read(rt, path) {
        Ok(bytes) => {
            step(bytes.as_slice())?;
            Ok(Status::Done)
        }
        Err(error) => {
            println!(rt; "error line {line}: {path}: {error}")?;
            Ok(Status::Failed)
        }
    }
}

// A line of a script, by its number, and its command or what is wrong with it.
#[derive(Clone, Copy)]
struct Line<'a> {
    number: usize,
    command: Result<Command<'a>, &'static str>,
}

// A line that opens a book, by its number, and the rooms of the book.
#[derive(Clone, Copy)]
struct Opening {
    line: usize,
    rooms: Rooms,
}

// Carries out a line that opens no book.
fn carry_out(rt: &HostRuntime, book: &mut Book<'_>, line: &Line<'_>) -> io::Result<Status> {
    match line.command {
        Ok(Command::Nothing | Command::Open(_)) => Ok(Status::Done),
        Ok(Command::Read(path)) => with_file(rt, line.number, path, |bytes| read(rt, bytes)),
        Ok(Command::Admit(path)) => with_file(
            rt,
            line.number,
            path,
            |bytes| admit(rt, book, bytes),
        ),
        Ok(Command::Find(letter, id)) => {
            find(rt, book, letter, id)?;
            Ok(Status::Done)
        }
        Ok(Command::Join(supplier, one, other)) => {
            join(rt, book, supplier, one, other)?;
            Ok(Status::Done)
        }
        Err(reason) => {
            println!(rt; "error line {}: {reason}", line.number)?;
            Ok(Status::Failed)
        }
    }
}

// How the lines of a book ended, and what opens the next one.
#[derive(Clone, Copy)]
struct Ended {
    status: Status,
    next: Option<Opening>,
}

// Carries out lines with a book of their own, up to the line that opens the next one. The first book of a script is opened by
// no line.
fn use_book(
    rt: &HostRuntime,
    opening: Option<Opening>,
    lines: &mut Lines<'_>,
) -> io::Result<Ended> {
    let rooms = opening.map_or(FIRST_ROOMS, |opening| opening.rooms);
    let mut runs = Runs::new(rt.alloc(), rooms)?;
    if opening.is_some() {
        println!(rt; "opened")?;
    }
    let mut book = runs.book();
    let mut status = Status::Done;
    let mut number = opening.map_or(0, |opening| opening.line);
    for text in lines {
        number = number.saturating_add(1);
        let line = Line {
            number,
            command: parse(text),
        };
        if let Ok(Command::Open(rooms)) = line.command {
            let next = Some(Opening {
                line: number,
                rooms,
            });
            return Ok(Ended { status, next });
        }
        status = status.and(carry_out(rt, &mut book, &line)?);
    }
    Ok(Ended { status, next: None })
}

// The text is walked once, and no line is kept but the one at hand: a parsed line takes 48 bytes, and a second walk, to find the
// lines that open a book, takes a third more time where lines are long.
pub fn run(rt: &HostRuntime, script: &str) -> io::Result<Status> {
    let mut lines = script.lines();
    let mut opening = None;
    let mut status = Status::Done;
    // each turn but the last ends at a line that opens a book
    for _ in 0..u64::MAX {
        let ended = use_book(rt, opening, &mut lines)?;
        status = status.and(ended.status);
        opening = ended.next;
        if opening.is_none() {
            break;
        }
    }
    Ok(status)
}
