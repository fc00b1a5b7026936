// A station of a carrier's network.
ghost use Rattle.kinds.specs.Station.{flag_columns, station_in, station_lines, station_marks, station_meaning, station_table, told_columns};
ghost use Rattle.kinds.specs.StationRows.{station_same, same_station};
ghost use Rattle.std.specs.Prelude.{◌≡◌, refl};
ghost use Rattle.std.proofs.Common.{rules};

use crate::cover::{Cover, Line};
use crate::kind::Kind;
use crate::values::taken;
use fields::bytes::{number_in, part};
use fields::flags::{KeyFlag, is_amended};
use fields::rule::FieldType::{Alphanumeric, Numeric};
use fields::rule::Need::{Mandatory, Optional};
use fields::rule::{Content, Context, Field};
use fields::text::Text;
use std::fmt;

// What a buyer is told of a station.
#[derive(Clone, Copy)]
pub struct StationTold {
    // the name in the national language
    pub name: Text<35>,
    // the plain name that series bear and by which the file is ordered
    pub designation: Text<17>,
    // the name in route texts, or blank
    pub route_description: Text<17>,
    // the fare zone, 0 if there is none
    pub zone: u32,
}

// The amendment flags that count 3.
#[derive(Clone, Copy)]
pub struct StationFlags {
    pub name: bool,
    pub designation: bool,
    pub route_description: bool,
    pub zone: bool,
}

// A struct of this kind's own, with public fields: one `Record<T, F>` under three names would say less of what it holds.
#[derive(Clone, Copy)]
pub struct Station {
    pub supplier: u32,
    pub number: u32,
    pub key_flag: KeyFlag,
    pub told: StationTold,
    pub amended: StationFlags,
}

#[rattlefmt::skip]
static LAYOUT: [Field; 11] = [
    Field { number: 1, first: 1, last: 4, holds: Numeric, need: Mandatory, content: Content::Supplier },
    Field { number: 2, first: 5, last: 9, holds: Numeric, need: Mandatory, content: Content::Any },
    Field { number: 3, first: 10, last: 10, holds: Numeric, need: Mandatory, content: Content::Between(0, 2) },
    Field { number: 5, first: 16, last: 50, holds: Alphanumeric, need: Mandatory, content: Content::Any },
    Field { number: 6, first: 51, last: 51, holds: Numeric, need: Mandatory, content: Content::Amendment },
    Field { number: 7, first: 52, last: 68, holds: Alphanumeric, need: Mandatory, content: Content::PlainText },
    Field { number: 8, first: 69, last: 69, holds: Numeric, need: Mandatory, content: Content::Amendment },
    Field { number: 9, first: 70, last: 86, holds: Alphanumeric, need: Optional, content: Content::Any },
    Field { number: 10, first: 87, last: 87, holds: Numeric, need: Mandatory, content: Content::Amendment },
    Field { number: 11, first: 88, last: 91, holds: Numeric, need: Optional, content: Content::Any },
    Field { number: 12, first: 92, last: 92, holds: Numeric, need: Optional, content: Content::Amendment },
];

#[rattlefmt::skip]
static LINES: [Line; 8] = [
    Line { number: 5, cover: Cover::By(6) },
    Line { number: 6, cover: Cover::Flag },
    Line { number: 7, cover: Cover::By(8) },
    Line { number: 8, cover: Cover::Flag },
    Line { number: 9, cover: Cover::By(10) },
    Line { number: 10, cover: Cover::Flag },
    Line { number: 11, cover: Cover::By(12) },
    Line { number: 12, cover: Cover::Flag },
];

fn told_in(row: &[u8]) -> StationTold
    ensures { result ≡ told_columns row.now }
{
    StationTold {
        name: Text::read(part(row, 16, 50)),
        designation: Text::read(part(row, 52, 68)),
        route_description: Text::read(part(row, 70, 86)),
        zone: number_in(row, 88, 91),
    }
}

fn flags_in(row: &[u8]) -> StationFlags
    ensures { result ≡ flag_columns row.now }
{
    StationFlags {
        name: is_amended(part(row, 51, 51)),
        designation: is_amended(part(row, 69, 69)),
        route_description: is_amended(part(row, 87, 87)),
        zone: is_amended(part(row, 92, 92)),
    }
}

impl Kind for Station {
    const LETTER: char = 'G';

    const LEAST: u32 = 92;

    const GREATEST: u32 = 512;

    ghost LETTER = { 71 };

    type Number = u32;

    type Told = StationTold;

    type Key = Text<17>;

    type Marks = [bool; 8];

    ghost meaning = { station_meaning };

    ghost numbered = { Prim.search rules };

    ghost ordered = { λ x y r e. e };

    ghost supplied = { λ s row e. refl };

    ghost unchanged = { λ t r d. station_same t r };

    ghost alike = { λ t r d. same_station t r };

    fn layout() -> &'static [Field] {
        &LAYOUT
    }

    fn lines() -> &'static [Line] {
        &LINES
    }

    fn values(supplier: u32, row: &[u8]) -> Station {
        Station {
            supplier,
            number: number_in(row, 5, 9),
            key_flag: KeyFlag::read(part(row, 10, 10)),
            told: told_in(row),
            amended: flags_in(row),
        }
    }

    fn number(&self) -> u32 {
        self.number
    }

    fn record_number(number: u32) -> u32 {
        number
    }

    fn key_flag(&self) -> KeyFlag {
        self.key_flag
    }

    fn told(&self) -> StationTold {
        self.told
    }

    fn order(&self) -> Text<17> {
        self.told.designation
    }

    fn context(&self, supplier: u32, _row: &[u8]) -> Context {
        Context {
            supplier,
            number: self.number,
            key_flag: self.key_flag,
        }
    }

    fn marks(&self, older: &StationTold) -> [bool; 8] {
        let newer = &self.told;
        [
            older.name != newer.name,
            self.amended.name,
            older.designation != newer.designation,
            self.amended.designation,
            older.route_description != newer.route_description,
            self.amended.route_description,
            older.zone != newer.zone,
            self.amended.zone,
        ]
    }

    fn take_over(&self, older: &StationTold) -> StationTold {
        let newer = &self.told;
        let amended = &self.amended;
        StationTold {
            name: taken(amended.name, newer.name, older.name),
            designation: taken(amended.designation, newer.designation, older.designation),
            route_description: taken(
                amended.route_description,
                newer.route_description,
                older.route_description,
            ),
            zone: taken(amended.zone, newer.zone, older.zone),
        }
    }
}

// The told fields in field order, as `find` answers them.
impl fmt::Display for StationTold {
    fn fmt<W: fmt::Write>(&self, f: &mut fmt::Formatter<W>) -> fmt::Result {
        let StationTold {
            name,
            designation,
            route_description,
            zone,
        } = *self;
        write!(f, "{name}|{designation}|{route_description}|{zone}")
    }
}
