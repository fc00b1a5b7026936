// The description of a fare table.
ghost use Rattle.kinds.specs.FareTable.{fare_table_flags, fare_table_in, fare_table_lines, fare_table_marks, fare_table_meaning, fare_table_table, fare_table_told, table_type_of, table_type_number};
ghost use Rattle.kinds.specs.FareTableRows.{fare_table_same, same_fare_table};
ghost use Rattle.std.specs.Prelude.{◌≡◌, refl};
ghost use Rattle.std.proofs.Common.{rules};

use crate::cover::{Cover, Line};
use crate::kind::Kind;
use crate::values::taken;
use fields::bytes::{number_in, part};
use fields::flags::{KeyFlag, is_amended};
use fields::rule::FieldType::{Alphanumeric, Numeric};
use fields::rule::Need::{Mandatory, Optional};
use fields::rule::{Content, Context, Field};
use fields::text::Text;
use std::fmt;

// How a fare table is built.
#[derive(Clone, Copy, PartialEq, Eq)]
pub enum TableType {
    // by distance
    Distance = 1,
    // by route
    Route = 2,
    // set fares
    SetFare = 3,
}

// What a buyer is told of a fare table.
#[derive(Clone, Copy)]
pub struct FareTableTold {
    pub table_type: TableType,
    // the description in the country's own language, and in three others or blank
    pub official: Text<30>,
    pub french: Text<30>,
    pub german: Text<30>,
    pub english: Text<30>,
    pub currency: Text<3>,
    // a return fare is twice the single fare
    pub return_is_double: bool,
}

// The amendment flags that count 3.
#[derive(Clone, Copy)]
pub struct FareTableFlags {
    pub descriptions: bool,
    pub currency: bool,
    pub return_is_double: bool,
}

// A struct of this kind's own, with public fields: one `Record<T, F>` under three names would say less of what it holds.
#[derive(Clone, Copy)]
pub struct FareTable {
    pub supplier: u32,
    pub number: u32,
    pub key_flag: KeyFlag,
    pub told: FareTableTold,
    pub amended: FareTableFlags,
    // the table that this one replaces, or 0; not told to buyers
    pub replaces: u32,
}

#[rattlefmt::skip]
static LAYOUT: [Field; 15] = [
    Field { number: 1, first: 1, last: 4, holds: Numeric, need: Mandatory, content: Content::Supplier },
    Field { number: 2, first: 5, last: 8, holds: Numeric, need: Mandatory, content: Content::Between(1000, 9999) },
    Field { number: 3, first: 9, last: 9, holds: Numeric, need: Mandatory, content: Content::Between(0, 2) },
    Field { number: 4, first: 10, last: 10, holds: Numeric, need: Mandatory, content: Content::Between(1, 3) },
    Field { number: 5, first: 11, last: 40, holds: Alphanumeric, need: Mandatory, content: Content::Any },
    Field { number: 6, first: 41, last: 70, holds: Alphanumeric, need: Optional, content: Content::Any },
    Field { number: 7, first: 71, last: 100, holds: Alphanumeric, need: Optional, content: Content::Any },
    Field { number: 8, first: 101, last: 130, holds: Alphanumeric, need: Optional, content: Content::Any },
    Field { number: 10, first: 161, last: 161, holds: Numeric, need: Mandatory, content: Content::Amendment },
    Field { number: 11, first: 162, last: 164, holds: Alphanumeric, need: Mandatory, content: Content::Capitals },
    Field { number: 12, first: 165, last: 165, holds: Numeric, need: Mandatory, content: Content::Amendment },
    Field { number: 14, first: 168, last: 168, holds: Numeric, need: Mandatory, content: Content::Between(0, 1) },
    Field { number: 15, first: 169, last: 169, holds: Numeric, need: Mandatory, content: Content::Amendment },
    Field { number: 20, first: 178, last: 185, holds: Alphanumeric, need: Mandatory, content: Content::FileName },
    Field { number: 21, first: 186, last: 189, holds: Numeric, need: Optional, content: Content::ZeroOrFrom(1000) },
];

#[rattlefmt::skip]
static LINES: [Line; 10] = [
    Line { number: 4, cover: Cover::Steady },
    Line { number: 5, cover: Cover::By(10) },
    Line { number: 6, cover: Cover::By(10) },
    Line { number: 7, cover: Cover::By(10) },
    Line { number: 8, cover: Cover::By(10) },
    Line { number: 10, cover: Cover::Flag },
    Line { number: 11, cover: Cover::By(12) },
    Line { number: 12, cover: Cover::Flag },
    Line { number: 14, cover: Cover::By(15) },
    Line { number: 15, cover: Cover::Flag },
];

impl TableType {
    // Any other number than 1 and 2 is the third type: a public `From<u32>` would offer that to all, and a trait for this
    // and the other enum of types would be longer than both.
    fn of(number: u32) -> TableType
        ensures { result ≡ table_type_of number }
    {
        match number {
            1 => TableType::Distance,
            2 => TableType::Route,
            _ => TableType::SetFare,
        }
    }

    // 1, 2 or 3, as rows have it.
    pub fn number(self) -> u32
        ensures { result ≡ table_type_number self }
    {
        self as u32
    }
}

fn told_in(row: &[u8]) -> FareTableTold
    ensures { result ≡ fare_table_told row.now }
{
    FareTableTold {
        table_type: TableType::of(number_in(row, 10, 10)),
        official: Text::read(part(row, 11, 40)),
        french: Text::read(part(row, 41, 70)),
        german: Text::read(part(row, 71, 100)),
        english: Text::read(part(row, 101, 130)),
        currency: Text::read(part(row, 162, 164)),
        return_is_double: number_in(row, 168, 168) == 1,
    }
}

fn flags_in(row: &[u8]) -> FareTableFlags
    ensures { result ≡ fare_table_flags row.now }
{
    FareTableFlags {
        descriptions: is_amended(part(row, 161, 161)),
        currency: is_amended(part(row, 165, 165)),
        return_is_double: is_amended(part(row, 169, 169)),
    }
}

impl Kind for FareTable {
    const LETTER: char = 'P';

    const LEAST: u32 = 207;

    const GREATEST: u32 = 207;

    ghost LETTER = { 80 };

    type Number = u32;

    type Told = FareTableTold;

    type Key = u32;

    type Marks = [bool; 10];

    ghost meaning = { fare_table_meaning };

    ghost numbered = { Prim.search rules };

    ghost ordered = { Prim.search rules };

    ghost supplied = { λ s row e. refl };

    ghost unchanged = { λ t r d. fare_table_same t r };

    ghost alike = { λ t r d. same_fare_table t r };

    fn layout() -> &'static [Field] {
        &LAYOUT
    }

    fn lines() -> &'static [Line] {
        &LINES
    }

    fn values(supplier: u32, row: &[u8]) -> FareTable {
        FareTable {
            supplier,
            number: number_in(row, 5, 8),
            key_flag: KeyFlag::read(part(row, 9, 9)),
            told: told_in(row),
            amended: flags_in(row),
            replaces: number_in(row, 186, 189),
        }
    }

    fn number(&self) -> u32 {
        self.number
    }

    fn record_number(number: u32) -> u32 {
        number
    }

    fn key_flag(&self) -> KeyFlag {
        self.key_flag
    }

    fn told(&self) -> FareTableTold {
        self.told
    }

    fn order(&self) -> u32 {
        self.number
    }

    fn context(&self, supplier: u32, _row: &[u8]) -> Context {
        Context {
            supplier,
            number: self.number,
            key_flag: self.key_flag,
        }
    }

    fn marks(&self, older: &FareTableTold) -> [bool; 10] {
        let newer = &self.told;
        let amended = &self.amended;
        [
            older.table_type != newer.table_type,
            older.official != newer.official,
            older.french != newer.french,
            older.german != newer.german,
            older.english != newer.english,
            amended.descriptions,
            older.currency != newer.currency,
            amended.currency,
            older.return_is_double != newer.return_is_double,
            amended.return_is_double,
        ]
    }

    fn take_over(&self, older: &FareTableTold) -> FareTableTold {
        let newer = &self.told;
        let amended = &self.amended;
        let described = if amended.descriptions { newer } else { older };
        FareTableTold {
            table_type: older.table_type,
            official: described.official,
            french: described.french,
            german: described.german,
            english: described.english,
            currency: taken(amended.currency, newer.currency, older.currency),
            return_is_double: taken(
                amended.return_is_double,
                newer.return_is_double,
                older.return_is_double,
            ),
        }
    }
}

// The told fields in field order, as `find` answers them.
impl fmt::Display for FareTableTold {
    fn fmt<W: fmt::Write>(&self, f: &mut fmt::Formatter<W>) -> fmt::Result {
        let FareTableTold {
            official,
            french,
            german,
            english,
            currency,
            ..
        } = *self;
        let table_type = self.table_type.number();
        let double = u8::from(self.return_is_double);
        write!(
            f,
            "{table_type}|{official}|{french}|{german}|{english}|{currency}|{double}"
        )
    }
}
