// The classes of bytes that fields are made of.

#[derive(Clone, Copy)]
pub enum Class {
    // '0' to '9'
    Digit,
    // 'A' to 'Z'
    Letter,
    // bytes 32 to 126
    Plain,
    // bytes 32 to 126 and 160 to 255
    Printable,
    // this byte alone
    Only(u8),
}
