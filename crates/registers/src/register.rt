// A register: the entries of one kind, in a run that the caller lends.
ghost use Rattle.std.specs.Prelude.{◌≡◌, ◌<◌, ◌≤◌, true, length, take, is_ok, filter};
ghost use Rattle.files.specs.Files.{record_at};
ghost use Rattle.files.specs.Rows.{row_in};
ghost use Rattle.registers.specs.Admission.{Entered, Judged, entries_after};
ghost use Rattle.registers.specs.Entries.{Ascending, is_own, standing};
ghost use Rattle.registers.specs.Ids.{compare_ids};
ghost use Rattle.registers.specs.Indexes.{Enterable, Index};
ghost use Rattle.std.proofs.lemmas.Map.Keys.{IsStrictlySortedBy-prop};

use crate::enter::replace_own;
use crate::entry::{Entry, Id, Standing};
use crate::fault::RegisterFault;
use crate::lookup::standing_of;
use crate::own::{own_of, staying};
use files::reading::MOST_ROWS;
use files::rows::Rows;
use indexes::Place;
use kinds::kind::Kind;
use std::ops::Range;

// The first entries of the run are used; they ascend by supplier and number, so that no number stands twice. The rest is
// open. The count stands beside the run, since the caller lends the memory, and the library has no heap.
#[derive(Drop)]
pub struct Register<'a, K: Kind> {
    entries: &'a mut [Entry<K::Number, K::Told>],
    used: usize,
    ghost within: { used ≤ length entries.now },
    ghost ascend: { Ascending K.Kind.meaning.numbers (take used entries.now) } by { IsStrictlySortedBy-prop _ _ },
}

impl<'a, K: Kind> Register<'a, K> {
    // A register without entries.
    #[tactic(auto, using(crate::proofs::Lookups::none_ascend))]
    pub fn open(entries: &'a mut [Entry<K::Number, K::Told>]) -> Register<'a, K>
        ensures used { result.used ≡ 0 }
        ensures run { result.entries.now ≡ entries.old }
    {
        Register { entries, used: 0 }
    }

    // The used entries.
    pub(crate) fn run(&self) -> &[Entry<K::Number, K::Told>]
        ensures { result.now ≡ take self.now.used self.now.entries.now }
    {
        &self.entries[0..self.used]
    }

    // What stands under an id.
    pub fn standing(&self, id: Id<K::Number>) -> Option<Standing<K::Told>>
        ensures { result ≡ standing (compare_ids K.Kind.meaning.numbers) (take self.now.used self.now.entries.now) id }
    {
        standing_of(self.run(), id)
    }

    // The entries of a supplier.
    pub fn own(&self, supplier: u32) -> &[Entry<K::Number, K::Told>]
        ensures { result.now ≡ filter (is_own supplier) (take self.now.used self.now.entries.now) }
    {
        own_of(self.run(), supplier)
    }

    // Whether a file may be entered, and whether its entries fit, or the first fault; as many rows as there are places,
    // which are then those of the rows' numbers, sorted. At most 4096 of them are looked at: a fault tells its row as a u32,
    // so a bound is needed in any case. That they do not fit is no `Err`: it is told only after all other files were looked at.
    pub fn check(
        &self,
        rows: &Rows<'_>,
        year: u16,
        places: &mut [Place<K::Number>],
    ) -> Result<bool, RegisterFault>
        ensures first { length places.old ≤ 4096 → Judged K.Kind.meaning rows.now.supplier (record_at K.Kind.meaning rows.now.supplier (row_in rows.now)) (take self.now.used self.now.entries.now) year (length places.old) (length self.now.entries.now) result }
        ensures index { length places.old ≤ 4096 → is_ok result ≡ true → Index K.Kind.meaning rows.now.supplier (row_in rows.now) K.Number.Ord.cmp places.new }
    {
        let n = MOST_ROWS.min(places.len());
        let stay = self.check_file(rows, year, &mut places[0..n])?;
        Ok(places.len() <= self.entries.len() - stay)
    }

    // Enters a file that may be entered, by the places of its rows' numbers; nothing, where its entries do not fit. Where
    // a number would stand twice, which `check` refuses, only the lower suppliers' entries are used after. The rows and the
    // year stay two parameters: these calls take them apart, and a struct of both would be made only to be read again.
    #[tactic(auto, using(crate::proofs::Lookups::none_ascend))]
    pub fn enter(&mut self, rows: &Rows<'_>, year: u16, places: &[Place<K::Number>])
        ensures entered { Enterable K.Kind.meaning rows.now.supplier (row_in rows.now) K.Number.Ord.cmp self.old.entries.now self.old.used year places.now → Entered K.Kind.meaning rows.now.supplier (record_at K.Kind.meaning rows.now.supplier (row_in rows.now)) (take self.old.used self.old.entries.now) year (length places.now) (take self.new.used self.new.entries.now) }
        ensures left { length self.old.entries.now < length (entries_after K.Kind.meaning rows.now.supplier (record_at K.Kind.meaning rows.now.supplier (row_in rows.now)) (take self.old.used self.old.entries.now) year (length places.now)) → (self.new.used ≡ self.old.used) × (self.new.entries.now ≡ self.old.entries.now) }
        ensures run { length self.new.entries.now ≡ length self.old.entries.now }
    {
        let (Range { start, end }, stay) = staying(self.run(), rows.supplier, year);
        if self.entries.len() - stay < places.len() {
            return;
        }
        let used = self.used;
        // while the run is written, none of its entries is used
        self.used = 0;
        let after = replace_own::<K>(self.entries, used, start..end, rows, year, places);
        self.used = after.unwrap_or(start);
    }
}
