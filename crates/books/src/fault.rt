// What a book refuses a sound delivery for.
ghost use Rattle.books.specs.Faults.{book_parts, line_parts};
ghost use Rattle.books.specs.declared.fault.BookFault.TheVariants.{Line};
ghost use Rattle.std.specs.Prelude.{◌≡◌};

use fields::parts::{Layer, Parts};
use registers::fault::RegisterFault;
use std::fmt;

#[derive(Clone, Copy, PartialEq, Eq, Debug)]
pub enum LineFault {
    // a new supplier, where all lines are in use
    TooManySuppliers,
    // the delivery does not follow the supplier's last one
    DoesNotFollow,
    // all receipts are given
    NoReceiptLeft,
}

#[derive(Clone, Copy, PartialEq, Eq, Debug)]
pub enum BookFault {
    Line(LineFault),
    // in the file of this letter
    Entry(char, RegisterFault),
    // the entries of the kind with this letter exceed its run
    Full(char),
}

impl From<LineFault> for BookFault {
    ghost from_gives = { λ e r. r ≡ Line e };

    fn from(fault: LineFault) -> BookFault {
        BookFault::Line(fault)
    }
}

impl LineFault {
    fn parts(&self) -> Parts
        ensures { result ≡ line_parts self.now }
    {
        let number = match self {
            LineFault::TooManySuppliers => 11,
            LineFault::DoesNotFollow => 12,
            LineFault::NoReceiptLeft => 13,
        };
        Parts::of(number, Layer::Line)
    }

    fn advice(&self) -> &'static str {
        match self {
            LineFault::TooManySuppliers =>
                "the supplier is new, and the book has 16 suppliers already",
            LineFault::DoesNotFollow => {
                "a first delivery has version 01; after it comes a later day with version 01, or the same day with the next version"
            }
            LineFault::NoReceiptLeft => "all 999999 receipts are given",
        }
    }
}

impl BookFault {
    pub fn parts(&self) -> Parts
        ensures { result ≡ book_parts self.now }
    {
        match *self {
            BookFault::Line(fault) => fault.parts(),
            BookFault::Entry(letter, fault) => fault.parts(letter),
            BookFault::Full(letter) => Parts {
                letter,
                ..Parts::of(18, Layer::Run)
            },
        }
    }

    // One sentence on what to repair.
    pub fn advice(&self) -> &'static str {
        match self {
            BookFault::Line(fault) => fault.advice(),
            BookFault::Entry(_, fault) => fault.advice(),
            BookFault::Full(_) => "the book has no room for the entries of this kind",
        }
    }
}

// One line for each kind of fault: a function or a trait that they shared would be called by a line as long.
impl fmt::Display for BookFault {
    fn fmt<W: fmt::Write>(&self, f: &mut fmt::Formatter<W>) -> fmt::Result {
        write!(f, "{} ({})", self.parts(), self.advice())
    }
}
