// The head of a delivery: the first 47 bytes of its buffer.
ghost use Rattle.std.specs.Prelude.{◌≡◌, ◌+◌, ◌*◌, ◌^◌, ◌<◌, ◌≤◌, ◌&&◌, length, is_ok, Some, None, Decides, MatchResult, ◌==◌};
ghost use Rattle.deliveries.specs.Head.{Bears, Kept, Whole, bytes_in, extent, head_fault, head_table};
ghost use Rattle.deliveries.specs.declared.fault.HeadFault.TheVariants.{BrokenField};
ghost use Rattle.fields.specs.Bytes.{columns, value};
ghost use Rattle.fields.specs.Faults.{field_of};

use crate::fault::HeadFault;
use fields::bytes::{number_in, part};
use fields::checker::check;
use fields::date::Date;
use fields::fault::FieldFault;
use fields::flags::KeyFlag;
use fields::rule::FieldType::Numeric;
use fields::rule::Need::Mandatory;
use fields::rule::{Content, Context, Field};
use std::fmt;
use std::ops::RangeInclusive;

// The rows of one file: how many, and how long each is.
#[derive(Clone, Copy)]
pub struct Extent {
    pub rows: u32,
    pub length: u32,
}

#[derive(Clone, Copy)]
pub struct Head {
    pub stations: Extent,
    pub series: Extent,
    pub tables: Extent,
    pub supplier: u32,
    pub first_day: Date,
    pub version: u32,
}

pub const HEAD_LENGTH: usize = 47;

#[rattlefmt::skip]
static HEAD: [Field; 11] = [
    Field { number: 1, first: 1, last: 1, holds: Numeric, need: Mandatory, content: Content::Between(3, 3) },
    Field { number: 2, first: 2, last: 9, holds: Numeric, need: Mandatory, content: Content::Any },
    Field { number: 3, first: 10, last: 14, holds: Numeric, need: Mandatory, content: Content::Between(0, 4096) },
    Field { number: 4, first: 15, last: 19, holds: Numeric, need: Mandatory, content: Content::Between(0, 4096) },
    Field { number: 5, first: 20, last: 24, holds: Numeric, need: Mandatory, content: Content::Between(0, 4096) },
    Field { number: 6, first: 25, last: 27, holds: Numeric, need: Mandatory, content: Content::Between(92, 512) },
    Field { number: 7, first: 28, last: 30, holds: Numeric, need: Mandatory, content: Content::Between(73, 512) },
    Field { number: 8, first: 31, last: 33, holds: Numeric, need: Mandatory, content: Content::Between(207, 207) },
    Field { number: 9, first: 34, last: 37, holds: Numeric, need: Mandatory, content: Content::Any },
    Field { number: 10, first: 38, last: 45, holds: Numeric, need: Mandatory, content: Content::Day },
    Field { number: 11, first: 46, last: 47, holds: Numeric, need: Mandatory, content: Content::Between(1, 99) },
];

fn layout() -> &'static [Field]
    ensures { result.now ≡ head_table }
{
    &HEAD
}

// No rule of the head refers to the context.
static NO_CONTEXT: Context = Context {
    supplier: 0,
    number: 0,
    key_flag: KeyFlag::NoAmendment,
};

fn extent_in(bytes: &[u8], rows: RangeInclusive<u16>, length: RangeInclusive<u16>) -> Extent
    ensures { rows.end ≤ rows.start + 7 → length.end ≤ length.start + 7 → result ≡ extent bytes.now rows.start rows.end length.start length.end }
{
    Extent {
        rows: number_in(bytes, *rows.start(), *rows.end()),
        length: number_in(bytes, *length.start(), *length.end()),
    }
}

impl Extent {
    // The bytes in all rows of the file.
    pub fn size(&self) -> u64
        ensures { result ≡ bytes_in self.now }
    {
        u64::from(self.rows) * u64::from(self.length)
    }
}

impl From<FieldFault> for HeadFault {
    ghost from_gives = { λ e r. r ≡ BrokenField (field_of e) };

    fn from(fault: FieldFault) -> HeadFault {
        HeadFault::BrokenField(fault.field())
    }
}

// The head by its eleven fields alone.
#[tactic(auto, using(crate::proofs::Heads::when_short, crate::proofs::Heads::when_broken, crate::proofs::Heads::no_day))]
fn read_fields(bytes: &[u8]) -> Result<Head, HeadFault>
    ensures { MatchResult result (Whole bytes.now) (λ e. head_fault bytes.now ≡ Some e) }
{
    if bytes.len() < HEAD_LENGTH {
        return Err(HeadFault::Short);
    }
    check(layout(), &NO_CONTEXT, bytes)?;
    let first_day = Date::read(part(bytes, 38, 45)).ok_or(HeadFault::BrokenField(10))?;
    Ok(Head {
        stations: extent_in(bytes, 10..=14, 25..=27),
        series: extent_in(bytes, 15..=19, 28..=30),
        tables: extent_in(bytes, 20..=24, 31..=33),
        supplier: number_in(bytes, 34, 37),
        first_day,
        version: number_in(bytes, 46, 47),
    })
}

// Whether field 2 tells the bytes in all rows, and nothing follows them.
fn has_size(bytes: &[u8], size: u64) -> bool
    requires { size < 2 ^ 32 }
    ensures { result ≡ (value (columns 2 9 bytes.now) == size && length bytes.now == 47 + size) }
{
    u64::from(number_in(bytes, 2, 9)) == size && bytes.len() as u64 == 47 + size
}

// The head at the front of a buffer that holds a whole delivery, or the first fault.
#[tactic(auto, using(crate::proofs::Heads::by_size, crate::proofs::Heads::refused, crate::proofs::Heads::small, crate::proofs::Heads::taken))]
pub fn read_head(bytes: &[u8]) -> Result<Head, HeadFault>
    ensures kept { Decides (is_ok result) (Kept bytes.now) }
    ensures first { MatchResult result (λ h. (head_fault bytes.now ≡ None) × Bears bytes.now h) (λ e. head_fault bytes.now ≡ Some e) }
{
    let head = read_fields(bytes)?;
    let size = head.stations.size() + head.series.size() + head.tables.size();
    if !has_size(bytes, size) {
        return Err(HeadFault::WrongSize);
    }
    Ok(head)
}

impl fmt::Display for Head {
    fn fmt<W: fmt::Write>(&self, f: &mut fmt::Formatter<W>) -> fmt::Result {
        let Head {
            stations,
            series,
            tables,
            supplier,
            first_day,
            version,
        } = *self;
        write!(
            f,
            "supplier {supplier:04} day {first_day} version {version:02}"
        )?;
        write!(
            f,
            " stations {} series {} tables {}",
            stations.rows, series.rows, tables.rows
        )
    }
}
