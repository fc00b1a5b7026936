// What a row of a file can be refused for.
ghost use Rattle.files.specs.Faults.{row_parts};
ghost use Rattle.files.specs.declared.fault.RowFault.TheVariants.{Field};
ghost use Rattle.std.specs.Prelude.{◌≡◌};

use fields::fault::FieldFault;
use fields::parts::{Layer, Parts};

#[derive(Clone, Copy, PartialEq, Eq, Debug)]
pub enum RowFault {
    // a field breaks its rule
    Field(FieldFault),
    // the row before comes later in file order; the record's number
    Later(u32),
    // an earlier row of the file has the number
    Twice(u32),
}

impl From<FieldFault> for RowFault {
    ghost from_gives = { λ e r. r ≡ Field e };

    fn from(fault: FieldFault) -> RowFault {
        RowFault::Field(fault)
    }
}

// A row's fault with its row, counted from 1.
#[derive(Clone, Copy, PartialEq, Eq, Debug)]
pub struct FileFault {
    pub row: u32,
    pub fault: RowFault,
}

impl FileFault {
    // The parts of the fault in the file of this letter.
    pub fn parts(&self, letter: char) -> Parts
        ensures { result ≡ row_parts letter self.now.row self.now.fault }
    {
        let parts = match self.fault {
            RowFault::Field(fault) => fault.parts(),
            RowFault::Later(record) => Parts {
                record,
                ..Parts::of(7, Layer::Row)
            },
            RowFault::Twice(record) => Parts {
                record,
                ..Parts::of(8, Layer::Row)
            },
        };
        Parts {
            letter,
            row: self.row,
            ..parts
        }
    }

    // One sentence on what to repair.
    pub fn advice(&self) -> &'static str {
        match &self.fault {
            RowFault::Field(fault) => fault.advice(),
            RowFault::Later(_) => "the row before comes later in file order",
            RowFault::Twice(_) => "an earlier row of the file has this number",
        }
    }
}
