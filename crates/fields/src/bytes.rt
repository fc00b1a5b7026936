// The bytes of a field: its columns in a row, their class, and the number they write.
ghost use Rattle.std.specs.Prelude.{◌≡◌, ℕ, ◌+◌, ◌-◌, ◌*◌, ◌^◌, ◌<◌, ◌≤◌, min, length};
ghost use Rattle.fields.specs.Bytes.{columns, every, has, value};

use crate::class::Class;

pub const BLANK: u8 = b' ';

impl Class {
    pub fn contains(self, byte: u8) -> bool
        ensures { result ≡ has self byte }
    {
        match self {
            Class::Digit => byte >= b'0' && byte <= b'9',
            Class::Letter => byte >= b'A' && byte <= b'Z',
            Class::Plain => byte >= 32 && byte <= 126,
            Class::Printable => byte >= 32 && byte <= 126 || byte >= 160,
            Class::Only(sign) => byte == sign,
        }
    }

    // Whether every byte is of this class.
    pub fn spans(self, bytes: &[u8]) -> bool
        ensures { result ≡ every self bytes.now }
    {
        bytes.iter().all(|byte| self.contains(*byte))
    }
}

// The columns `first` to `last` of a row, counted from 1; fewer, where the row ends before.
#[tactic(auto, using(std::proofs::lemmas::List::same_lists, std::proofs::lemmas::List::places), unfolding(crate::specs::Bytes::columns))]
pub fn part(row: &[u8], first: u16, last: u16) -> &[u8]
    ensures { result.now ≡ columns first last row.now }
{
    let start = row.len().min((first as usize).saturating_sub(1));
    let width = (last as usize + 1).saturating_sub(first as usize);
    let end = row.len().min(start + width);
    &row[start..end]
}

// The number that the bytes write, a blank counting as 0, up to the largest number a u64 holds.
pub fn number(bytes: &[u8]) -> u64
    ensures capped { result ≡ min (value bytes.now) 18446744073709551615 }
    ensures short { length bytes.now ≤ 8 → (result ≡ value bytes.now) × (result < 2 ^ 32) }
{
    // a `fold` is as long and no plainer, and a row took 16 % longer to read with it
    let mut sum: u64 = 0;
    for byte in bytes {
        sum = sum
            .saturating_mul(10)
            .saturating_add(u64::from(byte.saturating_sub(b'0')));
    }
    sum
}

// The number in the columns `first` to `last` of a row, up to the largest number a u32 holds.
#[tactic(auto, using(crate::proofs::Values::columns_short))]
pub fn number_in(row: &[u8], first: u16, last: u16) -> u32
    ensures capped { result ≡ min (value (columns first last row.now)) 4294967295 }
    ensures short { last ≤ first + 7 → result ≡ value (columns first last row.now) }
{
    number(part(row, first, last)).min(u64::from(u32::MAX)) as u32
}
