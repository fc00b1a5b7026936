// A series: a numbered route between two stations.
ghost use Rattle.kinds.specs.Series.{end_columns, series_flags, series_in, series_lines, series_marks, series_meaning, series_table, series_told, series_type_of, type_number};
ghost use Rattle.kinds.specs.SeriesRows.{series_same, same_series};
ghost use Rattle.std.specs.Prelude.{◌≡◌, refl, ◌+◌, ◌≤◌};
ghost use Rattle.std.proofs.Common.{rules};

use crate::cover::{Cover, Line};
use crate::kind::Kind;
use crate::values::taken;
use fields::bytes::{number_in, part};
use fields::class::Class;
use fields::flags::{KeyFlag, is_amended};
use fields::rule::FieldType::{Alphanumeric, Numeric};
use fields::rule::Need::{Mandatory, Optional};
use fields::rule::{Content, Context, Field};
use fields::text::Text;
use std::fmt;
use std::ops::RangeInclusive;

// What a series leads between.
#[derive(Clone, Copy, PartialEq, Eq)]
pub enum SeriesType {
    // from border to border
    Transit = 1,
    // from a border to a station
    Border = 2,
    // from station to station
    Stations = 3,
}

// Where a series starts or ends.
#[derive(Clone, Copy)]
pub struct End {
    pub station: u32,
    pub connection: u32,
    pub designation: Text<17>,
}

// What a buyer is told of a series.
#[derive(Clone, Copy)]
pub struct SeriesTold {
    pub series_type: SeriesType,
    pub departure: End,
    pub destination: End,
    pub route_number: u32,
    pub product: u32,
    pub offer: u32,
    // marked '+', the usual route
    pub usual: bool,
    // marked 'B'
    pub bus: bool,
    // marked 'S'
    pub ferry: bool,
}

// The amendment flags that count 3.
#[derive(Clone, Copy)]
pub struct SeriesFlags {
    pub series_type: bool,
    pub departure: bool,
    pub destination: bool,
    // route number, product, offer and usual route
    pub route: bool,
    pub bus: bool,
    pub ferry: bool,
}

// A struct of this kind's own, with public fields: one `Record<T, F>` under three names would say less of what it holds.
#[derive(Clone, Copy)]
pub struct Series {
    pub supplier: u32,
    pub number: u32,
    pub key_flag: KeyFlag,
    pub told: SeriesTold,
    pub amended: SeriesFlags,
}

// By which series stand in their file.
#[derive(Clone, Copy, PartialEq, Eq, PartialOrd, Ord)]
pub struct SeriesKey {
    // a number and no `SeriesType`, so that a key of any number can still be made
    pub series_type: u32,
    pub departure: Text<17>,
    pub destination: Text<17>,
    pub route_number: u32,
}

#[rattlefmt::skip]
static LAYOUT: [Field; 22] = [
    Field { number: 1, first: 1, last: 4, holds: Numeric, need: Mandatory, content: Content::Supplier },
    Field { number: 2, first: 5, last: 9, holds: Numeric, need: Mandatory, content: Content::Any },
    Field { number: 3, first: 10, last: 10, holds: Numeric, need: Mandatory, content: Content::Between(0, 2) },
    Field { number: 4, first: 11, last: 11, holds: Numeric, need: Mandatory, content: Content::Between(1, 3) },
    Field { number: 5, first: 12, last: 12, holds: Numeric, need: Mandatory, content: Content::Amendment },
    Field { number: 6, first: 13, last: 17, holds: Numeric, need: Mandatory, content: Content::Any },
    Field { number: 7, first: 18, last: 19, holds: Numeric, need: Optional, content: Content::Any },
    Field { number: 8, first: 20, last: 36, holds: Alphanumeric, need: Mandatory, content: Content::Any },
    Field { number: 9, first: 37, last: 37, holds: Numeric, need: Mandatory, content: Content::Amendment },
    Field { number: 10, first: 38, last: 42, holds: Numeric, need: Mandatory, content: Content::Any },
    Field { number: 11, first: 43, last: 44, holds: Numeric, need: Optional, content: Content::Any },
    Field { number: 12, first: 45, last: 61, holds: Alphanumeric, need: Mandatory, content: Content::Any },
    Field { number: 13, first: 62, last: 62, holds: Numeric, need: Mandatory, content: Content::Amendment },
    Field { number: 14, first: 63, last: 63, holds: Numeric, need: Mandatory, content: Content::Any },
    Field { number: 15, first: 64, last: 65, holds: Numeric, need: Optional, content: Content::Any },
    Field { number: 16, first: 66, last: 67, holds: Numeric, need: Optional, content: Content::Any },
    Field { number: 17, first: 68, last: 68, holds: Alphanumeric, need: Optional, content: Content::Sign(b'+') },
    Field { number: 18, first: 69, last: 69, holds: Numeric, need: Mandatory, content: Content::Amendment },
    Field { number: 19, first: 70, last: 70, holds: Alphanumeric, need: Optional, content: Content::Sign(b'B') },
    Field { number: 20, first: 71, last: 71, holds: Numeric, need: Mandatory, content: Content::Amendment },
    Field { number: 21, first: 72, last: 72, holds: Alphanumeric, need: Optional, content: Content::Sign(b'S') },
    Field { number: 22, first: 73, last: 73, holds: Numeric, need: Mandatory, content: Content::Amendment },
];

#[rattlefmt::skip]
static LINES: [Line; 19] = [
    Line { number: 4, cover: Cover::By(5) },
    Line { number: 5, cover: Cover::Flag },
    Line { number: 6, cover: Cover::By(9) },
    Line { number: 7, cover: Cover::By(9) },
    Line { number: 8, cover: Cover::By(9) },
    Line { number: 9, cover: Cover::Flag },
    Line { number: 10, cover: Cover::By(13) },
    Line { number: 11, cover: Cover::By(13) },
    Line { number: 12, cover: Cover::By(13) },
    Line { number: 13, cover: Cover::Flag },
    Line { number: 14, cover: Cover::By(18) },
    Line { number: 15, cover: Cover::By(18) },
    Line { number: 16, cover: Cover::By(18) },
    Line { number: 17, cover: Cover::By(18) },
    Line { number: 18, cover: Cover::Flag },
    Line { number: 19, cover: Cover::By(20) },
    Line { number: 20, cover: Cover::Flag },
    Line { number: 21, cover: Cover::By(22) },
    Line { number: 22, cover: Cover::Flag },
];

impl SeriesType {
    // Any other number than 1 and 2 is the third type: a public `From<u32>` would offer that to all, and a trait for this
    // and the other enum of types would be longer than both.
    fn of(number: u32) -> SeriesType
        ensures { result ≡ series_type_of number }
    {
        match number {
            1 => SeriesType::Transit,
            2 => SeriesType::Border,
            _ => SeriesType::Stations,
        }
    }

    // 1, 2 or 3, as rows have it.
    pub fn number(self) -> u32
        ensures { result ≡ type_number self }
    {
        self as u32
    }
}

fn end_in(
    row: &[u8],
    station: RangeInclusive<u16>,
    connection: RangeInclusive<u16>,
    designation: RangeInclusive<u16>,
) -> End
    requires { (station.end ≤ station.start + 7) × (connection.end ≤ connection.start + 7) }
    ensures { result ≡ end_columns station.start station.end connection.start connection.end designation.start designation.end row.now }
{
    End {
        station: number_in(row, *station.start(), *station.end()),
        connection: number_in(row, *connection.start(), *connection.end()),
        designation: Text::read(part(row, *designation.start(), *designation.end())),
    }
}

fn told_in(row: &[u8]) -> SeriesTold
    ensures { result ≡ series_told row.now }
{
    SeriesTold {
        series_type: SeriesType::of(number_in(row, 11, 11)),
        departure: end_in(row, 13..=17, 18..=19, 20..=36),
        destination: end_in(row, 38..=42, 43..=44, 45..=61),
        route_number: number_in(row, 63, 63),
        product: number_in(row, 64, 65),
        offer: number_in(row, 66, 67),
        usual: Class::Only(b'+').spans(part(row, 68, 68)),
        bus: Class::Only(b'B').spans(part(row, 70, 70)),
        ferry: Class::Only(b'S').spans(part(row, 72, 72)),
    }
}

fn flags_in(row: &[u8]) -> SeriesFlags
    ensures { result ≡ series_flags row.now }
{
    SeriesFlags {
        series_type: is_amended(part(row, 12, 12)),
        departure: is_amended(part(row, 37, 37)),
        destination: is_amended(part(row, 62, 62)),
        route: is_amended(part(row, 69, 69)),
        bus: is_amended(part(row, 71, 71)),
        ferry: is_amended(part(row, 73, 73)),
    }
}

impl Kind for Series {
    const LETTER: char = 'S';

    const LEAST: u32 = 73;

    const GREATEST: u32 = 512;

    ghost LETTER = { 83 };

    type Number = u32;

    type Told = SeriesTold;

    type Key = SeriesKey;

    type Marks = [bool; 19];

    ghost meaning = { series_meaning };

    ghost numbered = { Prim.search rules };

    ghost ordered = { λ x y r e. e };

    ghost supplied = { λ s row e. refl };

    ghost unchanged = { λ t r d. series_same t r };

    ghost alike = { λ t r d. same_series t r };

    fn layout() -> &'static [Field] {
        &LAYOUT
    }

    fn lines() -> &'static [Line] {
        &LINES
    }

    fn values(supplier: u32, row: &[u8]) -> Series {
        Series {
            supplier,
            number: number_in(row, 5, 9),
            key_flag: KeyFlag::read(part(row, 10, 10)),
            told: told_in(row),
            amended: flags_in(row),
        }
    }

    fn number(&self) -> u32 {
        self.number
    }

    fn record_number(number: u32) -> u32 {
        number
    }

    fn key_flag(&self) -> KeyFlag {
        self.key_flag
    }

    fn told(&self) -> SeriesTold {
        self.told
    }

    fn order(&self) -> SeriesKey {
        SeriesKey {
            series_type: self.told.series_type.number(),
            departure: self.told.departure.designation,
            destination: self.told.destination.designation,
            route_number: self.told.route_number,
        }
    }

    fn context(&self, supplier: u32, _row: &[u8]) -> Context {
        Context {
            supplier,
            number: self.number,
            key_flag: self.key_flag,
        }
    }

    fn marks(&self, older: &SeriesTold) -> [bool; 19] {
        let newer = &self.told;
        let amended = &self.amended;
        [
            older.series_type != newer.series_type,
            amended.series_type,
            older.departure.station != newer.departure.station,
            older.departure.connection != newer.departure.connection,
            older.departure.designation != newer.departure.designation,
            amended.departure,
            older.destination.station != newer.destination.station,
            older.destination.connection != newer.destination.connection,
            older.destination.designation != newer.destination.designation,
            amended.destination,
            older.route_number != newer.route_number,
            older.product != newer.product,
            older.offer != newer.offer,
            older.usual != newer.usual,
            amended.route,
            older.bus != newer.bus,
            amended.bus,
            older.ferry != newer.ferry,
            amended.ferry,
        ]
    }

    fn take_over(&self, older: &SeriesTold) -> SeriesTold {
        let newer = &self.told;
        let amended = &self.amended;
        let route = if amended.route { newer } else { older };
        SeriesTold {
            series_type: taken(amended.series_type, newer.series_type, older.series_type),
            departure: taken(amended.departure, newer.departure, older.departure),
            destination: taken(amended.destination, newer.destination, older.destination),
            route_number: route.route_number,
            product: route.product,
            offer: route.offer,
            usual: route.usual,
            bus: taken(amended.bus, newer.bus, older.bus),
            ferry: taken(amended.ferry, newer.ferry, older.ferry),
        }
    }
}

impl fmt::Display for End {
    fn fmt<W: fmt::Write>(&self, f: &mut fmt::Formatter<W>) -> fmt::Result {
        let End {
            station,
            connection,
            designation,
        } = *self;
        write!(f, "{station}|{connection}|{designation}")
    }
}

// The told fields in field order, as `find` answers them.
impl fmt::Display for SeriesTold {
    fn fmt<W: fmt::Write>(&self, f: &mut fmt::Formatter<W>) -> fmt::Result {
        let SeriesTold {
            departure,
            destination,
            route_number,
            product,
            offer,
            ..
        } = *self;
        let series_type = self.series_type.number();
        let usual = if self.usual { "+" } else { "" };
        let bus = if self.bus { "B" } else { "" };
        let ferry = if self.ferry { "S" } else { "" };
        write!(
            f,
            "{series_type}|{departure}|{destination}|{route_number}|{product}|{offer}|{usual}|{bus}|{ferry}"
        )
    }
}
