// The rules that a field keeps, and a row's table of fields.
use crate::flags::KeyFlag;

#[derive(Clone, Copy)]
pub enum FieldType {
    // digits in every column
    Numeric,
    // printable bytes, of which the first is no blank
    Alphanumeric,
}

#[derive(Clone, Copy)]
pub enum Need {
    Mandatory,
    // may be blank in every column
    Optional,
}

// What a field may hold besides being of its type.
#[derive(Clone, Copy)]
pub enum Content {
    Any,
    // a number from the first to the second
    Between(u32, u32),
    // zero, or a number from this one on
    ZeroOrFrom(u32),
    // an amendment flag: 0, or 3 in a row with key flag 0
    Amendment,
    // a day of the calendar
    Day,
    // the letters A to Z
    Capitals,
    // bytes 32 to 126
    PlainText,
    // this sign, or blank
    Sign(u8),
    // the head's supplier
    Supplier,
    // the row's number and then the head's supplier, four digits each
    FileName,
}

// A line of a table: a field's number, its first and last column, and its rule.
#[derive(Clone, Copy)]
pub struct Field {
    pub number: u8,
    pub first: u16,
    pub last: u16,
    pub holds: FieldType,
    pub need: Need,
    pub content: Content,
}

// What the rules of a row refer to: the head's supplier, and the row's own number and key flag.
#[derive(Clone, Copy)]
pub struct Context {
    pub supplier: u32,
    pub number: u32,
    pub key_flag: KeyFlag,
}
