// The one checker: it walks a table of fields over a row's bytes.
ghost use Rattle.fields.specs.Bytes.{padded};
ghost use Rattle.fields.specs.Rules.{Sound, allowed, checked, equal, fault, file_name, left_blank, of_type, typed_as, unless};
ghost use Rattle.std.specs.Prelude.{◌≡◌, is_ok, Ok, Decides, ◌==◌, slice_index_or};

use crate::bytes::{BLANK, number, part};
use crate::class::Class;
use crate::date::Date;
use crate::fault::FieldFault;
use crate::flags::KeyFlag;
use crate::rule::{Content, Context, Field, FieldType, Need};

impl Need {
    fn leaves_blank(self, bytes: &[u8]) -> bool
        ensures { result ≡ left_blank self bytes.now }
    {
        match self {
            Need::Mandatory => false,
            Need::Optional => Class::Only(BLANK).spans(bytes),
        }
    }
}

fn starts_blank(bytes: &[u8]) -> bool
    ensures { result ≡ (slice_index_or bytes.now 0 32 == 32) }
{
    bytes.first().is_none_or(|byte| *byte == BLANK)
}

impl FieldType {
    fn spans(self, bytes: &[u8]) -> bool
        ensures { result ≡ of_type self bytes.now }
    {
        match self {
            FieldType::Numeric => Class::Digit.spans(bytes),
            FieldType::Alphanumeric => !starts_blank(bytes) && Class::Printable.spans(bytes),
        }
    }
}

fn four_digits(n: u32) -> [u8; 4]
    ensures { result ≡ padded 4 n }
{
    [
        b'0' + (n / 1000 % 10) as u8,
        b'0' + (n / 100 % 10) as u8,
        b'0' + (n / 10 % 10) as u8,
        b'0' + (n % 10) as u8,
    ]
}

impl Context {
    fn file_name(&self) -> [u8; 8]
        ensures { result ≡ file_name self.now }
    {
        let [a, b, c, d] = four_digits(self.number);
        let [e, f, g, h] = four_digits(self.supplier);
        [a, b, c, d, e, f, g, h]
    }
}

impl Content {
    fn allows(self, context: &Context, bytes: &[u8]) -> bool
        ensures { result ≡ allowed context.now self bytes.now }
    {
        match self {
            Content::Between(low, high) => {
                let n = number(bytes);
                u64::from(low) <= n && n <= u64::from(high)
            }
            Content::ZeroOrFrom(low) => {
                let n = number(bytes);
                n == 0 || u64::from(low) <= n
            }
            Content::Amendment => match number(bytes) {
                0 => true,
                3 => context.key_flag == KeyFlag::NoAmendment,
                _ => false,
            },
            Content::Day => Date::read(bytes).is_some(),
            Content::Capitals => Class::Letter.spans(bytes),
            Content::PlainText => Class::Plain.spans(bytes),
            Content::Sign(sign) => Class::Only(BLANK).spans(bytes)
                || Class::Only(sign).spans(bytes),
            Content::Any | Content::Supplier | Content::FileName => true,
        }
    }

    fn equals(self, context: &Context, bytes: &[u8]) -> bool
        ensures { result ≡ equal context.now self bytes.now }
    {
        match self {
            Content::Supplier => number(bytes) == u64::from(context.supplier),
            Content::FileName => bytes == context.file_name().as_slice(),
            _ => true,
        }
    }
}

impl Field {
    fn is_typed(&self, bytes: &[u8]) -> bool
        ensures { result ≡ typed_as self.now bytes.now }
    {
        bytes.len() == (self.last as usize + 1).saturating_sub(self.first as usize)
            && (self.need.leaves_blank(bytes) || self.holds.spans(bytes))
    }

    // Whether the field keeps its rule in a row, or else its fault.
    #[tactic(auto, unfolding(crate::specs::Rules::fault))]
    pub fn check(&self, context: &Context, row: &[u8]) -> Result<(), FieldFault>
        ensures { result ≡ unless (fault context.now row.now self.now) (Ok tt) }
    {
        let bytes = part(row, self.first, self.last);
        if !self.is_typed(bytes) {
            return Err(FieldFault::NotOfType(self.number));
        }
        if !self.content.allows(context, bytes) {
            return Err(FieldFault::NotAllowed(self.number));
        }
        if !self.content.equals(context, bytes) {
            return Err(FieldFault::NotEqual(self.number));
        }
        Ok(())
    }
}

// Whether every field of a table keeps its rule in a row, or else the first fault.
pub fn check(table: &[Field], context: &Context, row: &[u8]) -> Result<(), FieldFault>
    ensures first { result ≡ checked context.now row.now table.now }
    ensures sound { Decides (is_ok result) (Sound context.now row.now table.now) }
{
    // a `for` with `?` is as short as `try_for_each` with a closure, and shows that the first fault is given.
    for field in table {
        field.check(context, row)?;
    }
    Ok(())
}
