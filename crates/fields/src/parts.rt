// The six parts that every fault tells.
ghost use Rattle.fields.specs.Faults.{layer_name, line, untold_parts};
ghost use Rattle.std.specs.Prelude.{◌≡◌, Some};

use std::fmt;

// Where the check stands that a delivery did not pass.
#[derive(Clone, Copy, PartialEq, Eq, Debug)]
pub enum Layer {
    Head,
    Field,
    Row,
    Across,
    Line,
    Entry,
    Run,
    Copy,
}

// What is not told is 0, or '-' for the letter, as a fault's line has it: options would be turned into these again.
#[derive(Clone, Copy, PartialEq, Eq, Debug)]
pub struct Parts {
    pub number: u8,
    pub layer: Layer,
    // the kind's own constant, here and in every fault that carries one, since a kind fixes its letter
    pub letter: char,
    pub row: u32,
    pub field: u8,
    pub record: u32,
}

impl Layer {
    pub fn name(self) -> &'static str
        ensures { result.now ≡ layer_name self }
    {
        match self {
            Layer::Head => "head",
            Layer::Field => "field",
            Layer::Row => "row",
            Layer::Across => "across",
            Layer::Line => "line",
            Layer::Entry => "entry",
            Layer::Run => "run",
            Layer::Copy => "copy",
        }
    }
}

impl Parts {
    // A fault of which nothing else is told.
    pub fn of(number: u8, layer: Layer) -> Parts
        ensures { result ≡ untold_parts number layer }
    {
        Parts {
            number,
            layer,
            letter: '-',
            row: 0,
            field: 0,
            record: 0,
        }
    }
}

impl fmt::Display for Parts {
    ghost output = { λ p. Some (line p) };

    fn fmt<W: fmt::Write>(&self, f: &mut fmt::Formatter<W>) -> fmt::Result {
        let Parts {
            number,
            layer,
            letter,
            row,
            field,
            record,
        } = *self;
        let layer = layer.name();
        write!(
            f,
            "{number} {layer} {letter} row {row} field {field} record {record}"
        )
    }
}
