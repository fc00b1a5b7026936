// What a delivery can be refused for: its head, a row, or a series beside its stations.
ghost use Rattle.deliveries.specs.Faults.{delivery_parts, head_parts};
ghost use Rattle.deliveries.specs.declared.fault.DeliveryFault.TheVariants.{Head};
ghost use Rattle.std.specs.Prelude.{◌≡◌};

use fields::parts::{Layer, Parts};
use files::fault::FileFault;
use std::fmt;

#[derive(Clone, Copy, PartialEq, Eq, Debug)]
pub enum HeadFault {
    // fewer than 47 bytes
    Short,
    // the field with this number breaks its rule
    BrokenField(u8),
    // field 2 or the buffer's length is not what the counts and lengths give
    WrongSize,
}

impl HeadFault {
    pub fn parts(&self) -> Parts
        ensures { result ≡ head_parts self.now }
    {
        let (number, field) = match *self {
            HeadFault::Short => (1, 0),
            HeadFault::BrokenField(field) => (2, field),
            HeadFault::WrongSize => (3, 2),
        };
        Parts {
            field,
            ..Parts::of(number, Layer::Head)
        }
    }

    // One sentence on what to repair.
    pub fn advice(&self) -> &'static str {
        match self {
            HeadFault::Short => "there are fewer than 47 bytes",
            HeadFault::BrokenField(field) => field_advice(*field),
            HeadFault::WrongSize =>
                "the number of bytes in all rows is not the sum of counts times lengths, or the file is not 47 bytes longer",
        }
    }
}

fn field_advice(field: u8) -> &'static str {
    match field {
        1 => "the number of files is not 3",
        2 => "the number of bytes in all rows is not eight digits",
        3 => "the number of station rows is not between 0 and 4096",
        4 => "the number of series rows is not between 0 and 4096",
        5 => "the number of fare table rows is not between 0 and 4096",
        6 => "the station row length is not between 92 and 512",
        7 => "the series row length is not between 73 and 512",
        8 => "the fare table row length is not 207",
        9 => "the supplier is not four digits",
        10 => "the first day is not a day of the calendar in the years 2000 to 9999",
        11 => "the version is not between 01 and 99",
        _ => "the head has no such field",
    }
}

// One line for each kind of fault: a function or a trait that they shared would be called by a line as long.
impl fmt::Display for HeadFault {
    fn fmt<W: fmt::Write>(&self, f: &mut fmt::Formatter<W>) -> fmt::Result {
        write!(f, "{} ({})", self.parts(), self.advice())
    }
}

// A series with key flag 0 or 1 that does not fit its stations, with the field at fault and the series' number.
#[derive(Clone, Copy, PartialEq, Eq, Debug)]
pub enum AcrossFault {
    // no station with this code has key flag 0 or 1
    NoStation(u8, u32),
    // the designation is not that station's
    OtherDesignation(u8, u32),
}

#[derive(Clone, Copy, PartialEq, Eq, Debug)]
pub enum DeliveryFault {
    Head(HeadFault),
    // in the file of this letter
    Row(char, FileFault),
    // in this row of the series, counted from 1
    Across(u32, AcrossFault),
}

impl From<HeadFault> for DeliveryFault {
    ghost from_gives = { λ e r. r ≡ Head e };

    fn from(fault: HeadFault) -> DeliveryFault {
        DeliveryFault::Head(fault)
    }
}

impl DeliveryFault {
    pub fn parts(&self) -> Parts
        ensures { result ≡ delivery_parts self.now }
    {
        match *self {
            DeliveryFault::Head(fault) => fault.parts(),
            DeliveryFault::Row(letter, fault) => fault.parts(letter),
            DeliveryFault::Across(row, fault) => {
                let (number, field, record) = match fault {
                    AcrossFault::NoStation(field, record) => (9, field, record),
                    AcrossFault::OtherDesignation(field, record) => (10, field, record),
                };
                Parts {
                    letter: 'S',
                    row,
                    field,
                    record,
                    ..Parts::of(number, Layer::Across)
                }
            }
        }
    }

    // One sentence on what to repair.
    pub fn advice(&self) -> &'static str {
        match self {
            DeliveryFault::Head(fault) => fault.advice(),
            DeliveryFault::Row(_, fault) => fault.advice(),
            DeliveryFault::Across(_, AcrossFault::NoStation(_, _)) => {
                "the series names a station that has no row with key flag 0 or 1"
            }
            DeliveryFault::Across(_, AcrossFault::OtherDesignation(_, _)) => {
                "the designation is not the one that the station's row has"
            }
        }
    }
}

// One line for each kind of fault: a function or a trait that they shared would be called by a line as long.
impl fmt::Display for DeliveryFault {
    fn fmt<W: fmt::Write>(&self, f: &mut fmt::Formatter<W>) -> fmt::Result {
        write!(f, "{} ({})", self.parts(), self.advice())
    }
}
