// A kind of record: what a station, a series and a fare table have in common.
ghost use Rattle.fields.specs.declared.flags.KeyFlag.TheVariants.{Deletion, NoAmendment};
ghost use Rattle.kinds.specs.Cover.{TrueFlags, Unchanged};
ghost use Rattle.kinds.specs.Meaning.{Meaning, compares, reads};
ghost use Rattle.std.specs.Prelude.{◌≡◌, ℕ, List, not, is_some, Ok, Err, Decides, MatchResult, OnOk};
ghost use Rattle.std.specs.declared.cmp.Ordering.{Ordering};

use crate::cover::{Line, first_fault};
use fields::checker::check;
use fields::fault::FieldFault;
use fields::flags::KeyFlag;
use fields::rule::{Context, Field};
use std::cmp::Ord;
use std::convert::AsSlice;

pub trait Kind: Copy {
    // the letter itself, since deliveries, answers and faults bear it
    const LETTER: char;

    // the length of a row is from the least to the greatest
    const LEAST: u32;

    const GREATEST: u32;

    ghost LETTER: { ℕ };

    type Number: Ord + Copy;

    type Told: Copy;

    type Key: Ord + Copy;

    type Marks: AsSlice<bool> + Copy;

    ghost meaning: { Meaning Self Self.Told Self.Number Self.Key };

    // The table of a row's fields.
    fn layout() -> &'static [Field]
        ensures { result.now ≡ meaning.table };

    // The cover table, with a line for each told field and each flag.
    fn lines() -> &'static [Line]
        ensures { result.now ≡ meaning.lines };

    // What the columns of a row say, whether they keep their rules or not.
    fn values(supplier: u32, row: &[u8]) -> Self
        ensures { result ≡ meaning.values supplier row.now };

    // These read a field of a kind's own struct, which a body here could not. `record_number` is each kind's own too, since a
    // number of several parts would be told in its own way.
    fn number(&self) -> Self::Number
        ensures { result ≡ meaning.number self.now };

    // The number as a fault tells it.
    fn record_number(number: Self::Number) -> u32
        ensures { result ≡ meaning.record_number number };

    fn key_flag(&self) -> KeyFlag
        ensures { result ≡ meaning.key_flag self.now };

    fn told(&self) -> Self::Told
        ensures { result ≡ meaning.told self.now };

    fn order(&self) -> Self::Key
        ensures { result ≡ meaning.order self.now };

    // What the rules of this record's row refer to: each kind's own, since the meaning leaves it open.
    fn context(&self, supplier: u32, row: &[u8]) -> Context
        ensures { self.now ≡ meaning.values supplier row.now → result ≡ meaning.context supplier row.now };

    // Beside each line of the cover table, whether the told field differs from the older one or the flag counts 3.
    fn marks(&self, older: &Self::Told) -> Self::Marks
        ensures { Self.Marks.items result ≡ meaning.marks older.now self.now };

    // The older told fields, with those that a flag 3 covers replaced from this record.
    fn take_over(&self, older: &Self::Told) -> Self::Told
        ensures { result ≡ meaning.takes older.now self.now };

    // The numbers and the order keys compare as the meaning has it.
    ghost numbered: { (x y : Self.Number) (r : Ordering) → (r ≡ Self.Number.Ord.cmp x y) → r ≡ meaning.numbers.cmp x y };

    ghost ordered: { (x y : Self.Key) (r : Ordering) → (r ≡ Self.Key.Ord.cmp x y) → r ≡ meaning.file_order.cmp x y };

    // A record bears the supplier its row is read under.
    ghost supplied: { (s : ℕ) (row : List ℕ) → (reads meaning s row ≡ Ok (meaning.values s row)) → meaning.supplier (meaning.values s row) ≡ s };

    // Of a deletion, no mark of a told field is set exactly where all told fields are the older ones.
    ghost unchanged: { (t : Self.Told) (r : Self) → (meaning.key_flag r ≡ Deletion) → Unchanged meaning.lines (meaning.marks t r) → t ≡ meaning.told r };

    ghost alike: { (t : Self.Told) (r : Self) → (meaning.key_flag r ≡ Deletion) → t ≡ meaning.told r → Unchanged meaning.lines (meaning.marks t r) };

    // Reads a row under a head's supplier into this record, or gives the first field fault and leaves it as it was.
    final fn read(&mut self, supplier: u32, row: &[u8]) -> Result<(), FieldFault>
        ensures reads { MatchResult result (λ _. reads meaning supplier row.now ≡ Ok self.new) (λ e. (reads meaning supplier row.now ≡ Err e) × (self.new ≡ self.old)) }
        ensures supplier { OnOk result (meaning.supplier self.new ≡ supplier) }
    {
        let record = Self::values(supplier, row);
        check(Self::layout(), &record.context(supplier, row), row)?;
        *self = record;
        Ok(())
    }

    // The first untrue flag or changed steady field at key flag 0, the first changed told field at key flag 2.
    final fn compare(&self, older: &Self::Told) -> Option<u8>
        ensures value { result ≡ compares meaning older.now self.now }
        ensures amended { meaning.key_flag self.now ≡ NoAmendment → Decides (not (is_some result)) (TrueFlags meaning.lines (meaning.marks older.now self.now)) }
        ensures deleted { meaning.key_flag self.now ≡ Deletion → Decides (not (is_some result)) (older.now ≡ meaning.told self.now) }
    {
        first_fault(self.key_flag(), Self::lines(), self.marks(older).as_slice())
    }
}
