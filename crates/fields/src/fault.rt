// A field that breaks its rule.
ghost use Rattle.fields.specs.Faults.{field_of, field_parts};
ghost use Rattle.std.specs.Prelude.{◌≡◌};

use crate::parts::{Layer, Parts};
use std::fmt;

// The fault of a field, with the field's number.
#[derive(Clone, Copy, PartialEq, Eq, Debug)]
pub enum FieldFault {
    // not of its type, or mandatory and blank
    NotOfType(u8),
    // of its type, but not an allowed content
    NotAllowed(u8),
    // not equal to the head's value or the composed file name
    NotEqual(u8),
}

impl FieldFault {
    pub fn parts(&self) -> Parts
        ensures { result ≡ field_parts self.now }
    {
        let (number, field) = match *self {
            FieldFault::NotOfType(field) => (4, field),
            FieldFault::NotAllowed(field) => (5, field),
            FieldFault::NotEqual(field) => (6, field),
        };
        Parts {
            field,
            ..Parts::of(number, Layer::Field)
        }
    }

    pub fn field(&self) -> u8
        ensures { result ≡ field_of self.now }
    {
        match *self {
            FieldFault::NotOfType(field)
            | FieldFault::NotAllowed(field)
            | FieldFault::NotEqual(field) => field,
        }
    }

    // One sentence on what to repair.
    pub fn advice(&self) -> &'static str {
        match self {
            FieldFault::NotOfType(_) =>
                "the field is not of its type, or it is mandatory and blank",
            FieldFault::NotAllowed(_) => "the field holds a content that is not allowed",
            FieldFault::NotEqual(_) =>
                "the field is not equal to the head's supplier or to the composed file name",
        }
    }
}

// One line for each kind of fault: a function or a trait that they shared would be called by a line as long.
impl fmt::Display for FieldFault {
    fn fmt<W: fmt::Write>(&self, f: &mut fmt::Formatter<W>) -> fmt::Result {
        write!(f, "{} ({})", self.parts(), self.advice())
    }
}
