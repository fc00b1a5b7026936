// What a register refuses a file for.
ghost use Rattle.registers.specs.Faults.{entry_parts, register_parts};
ghost use Rattle.std.specs.Prelude.{◌≡◌};

use fields::parts::{Layer, Parts};

// A row that does not fit what stands under its number, with the record's number.
#[derive(Clone, Copy, PartialEq, Eq, Debug)]
pub enum EntryFault {
    // the number is blocked
    Blocked(u32),
    // key flag 1 on a live number, or 0 or 2 on one that is not live
    WrongKeyFlag(u32),
    // this flag is untrue, or this field has changed where it may not
    Untrue(u8, u32),
}

#[derive(Clone, Copy, PartialEq, Eq, Debug)]
pub enum RegisterFault {
    // in this row, counted from 1
    Row(u32, EntryFault),
    // a live number of the supplier has no row
    Missing(u32),
}

impl EntryFault {
    fn parts(&self, letter: char, row: u32) -> Parts
        ensures { result ≡ entry_parts letter row self.now }
    {
        let (number, field, record) = match *self {
            EntryFault::Blocked(record) => (14, 0, record),
            EntryFault::WrongKeyFlag(record) => (15, 0, record),
            EntryFault::Untrue(field, record) => (16, field, record),
        };
        Parts {
            letter,
            row,
            field,
            record,
            ..Parts::of(number, Layer::Entry)
        }
    }

    fn advice(&self) -> &'static str {
        match self {
            EntryFault::Blocked(_) => {
                "the number was deleted less than three calendar years before, and is not free yet"
            }
            EntryFault::WrongKeyFlag(_) => {
                "key flag 1 is for a number that is not live, 0 and 2 for one that is"
            }
            EntryFault::Untrue(_, _) =>
                "the flag is not true of the fields it covers, or the field may not change",
        }
    }
}

impl RegisterFault {
    // The parts of the fault in the file of this letter.
    pub fn parts(&self, letter: char) -> Parts
        ensures { result ≡ register_parts letter self.now }
    {
        match *self {
            RegisterFault::Row(row, fault) => fault.parts(letter, row),
            RegisterFault::Missing(record) => Parts {
                letter,
                record,
                ..Parts::of(17, Layer::Entry)
            },
        }
    }

    // One sentence on what to repair.
    pub fn advice(&self) -> &'static str {
        match self {
            RegisterFault::Row(_, fault) => fault.advice(),
            RegisterFault::Missing(_) => "a live number has no row, not even one that deletes it",
        }
    }
}
