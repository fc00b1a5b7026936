// The rows of a file beside the entries of a register.
ghost use Rattle.std.specs.Prelude.{◌≡◌, ℕ, ◌≤◌, true, not, ◌&&◌, List, length, take, is_ok, IfOk, Some, MatchResult};
ghost use Rattle.files.specs.Files.{Noted, record_at};
ghost use Rattle.files.specs.Rows.{row_in};
ghost use Rattle.registers.specs.Admission.{Judged, Passes, beside, has_row, missing_refusal, register_fault, row_refusal, rows_refusal, unless_new, while_live};
ghost use Rattle.registers.specs.Entries.{Ascending, is_live};
ghost use Rattle.registers.specs.Indexes.{Index};
ghost use Rattle.std.specs.Result.{result_err};
ghost use Rattle.std.specs.List.{AllByRecursion};

use crate::entry::{Entry, Id, Standing, is_blocked};
use crate::fault::{EntryFault, RegisterFault};
use crate::own::staying;
use crate::register::Register;
use fields::flags::KeyFlag;
use files::rows::Rows;
use indexes::{Place, first_repeat, row_of};
use kinds::kind::Kind;

fn check_new(key_flag: KeyFlag, number: u32) -> Result<(), EntryFault>
    ensures { result_err result ≡ unless_new key_flag number }
{
    match key_flag {
        KeyFlag::New => Ok(()),
        KeyFlag::NoAmendment | KeyFlag::Deletion => Err(EntryFault::WrongKeyFlag(number)),
    }
}

fn check_live(key_flag: KeyFlag, number: u32, untrue: Option<u8>) -> Result<(), EntryFault>
    ensures { result_err result ≡ while_live key_flag number untrue }
{
    match (key_flag, untrue) {
        (KeyFlag::New, _) => Err(EntryFault::WrongKeyFlag(number)),
        (_, Some(field)) => Err(EntryFault::Untrue(field, number)),
        (_, None) => Ok(()),
    }
}

// A row beside what stands under its number.
fn check_entry<K: Kind>(
    newer: &K,
    standing: &Option<Standing<K::Told>>,
    year: u16,
) -> Result<(), EntryFault>
    ensures { result_err result ≡ beside K.Kind.meaning year newer.now standing.now }
{
    let number = K::record_number(newer.number());
    match standing {
        Some(Standing::Live(told)) => check_live(newer.key_flag(), number, newer.compare(told)),
        Some(Standing::Retired(retired)) => {
            if is_blocked(*retired, year) {
                return Err(EntryFault::Blocked(number));
            }
            check_new(newer.key_flag(), number)
        }
        None => check_new(newer.key_flag(), number),
    }
}

// Whether an entry is live and its number not among the places.
fn lacks_row<K: Kind>(entry: &Entry<K::Number, K::Told>, places: &[Place<K::Number>]) -> bool
    ensures { (s : ℕ) (row : ℕ → List ℕ) → Index K.Kind.meaning s row K.Number.Ord.cmp places.now → result ≡ (is_live entry.now.standing && not (has_row K.Kind.meaning s (record_at K.Kind.meaning s row) (length places.now) entry.now.id.number)) }
{
    match entry.standing {
        Standing::Live(_) => row_of(places, entry.id.number).is_none(),
        Standing::Retired(_) => false,
    }
}

// The first of a supplier's own entries that is live and has no row. The places are those of the rows' numbers, sorted. A
// `find` would need a `match` on what it found, and say no less.
fn check_missing<K: Kind>(
    own: &[Entry<K::Number, K::Told>],
    places: &[Place<K::Number>],
) -> Result<(), RegisterFault>
    ensures { (s : ℕ) (row : ℕ → List ℕ) → Index K.Kind.meaning s row K.Number.Ord.cmp places.now → Ascending K.Kind.meaning.numbers own.now → AllByRecursion (λ e. e.id.supplier ≡ s) own.now → result_err result ≡ missing_refusal K.Kind.meaning s (record_at K.Kind.meaning s row) own.now (length places.now) }
{
    for entry in own {
        if lacks_row::<K>(entry, places) {
            return Err(RegisterFault::Missing(K::record_number(entry.id.number)));
        }
    }
    Ok(())
}

impl<K: Kind> Register<'_, K> {
    // Row i beside what stands under its number: its number, or the first fault.
    fn check_row(&self, rows: &Rows<'_>, i: usize, year: u16) -> Result<K::Number, EntryFault>
        ensures number { IfOk result (λ n. n ≡ K.Kind.meaning.number (record_at K.Kind.meaning rows.now.supplier (row_in rows.now) i)) }
        ensures first { result_err result ≡ row_refusal K.Kind.meaning rows.now.supplier (record_at K.Kind.meaning rows.now.supplier (row_in rows.now)) (take self.now.used self.now.entries.now) year i }
    {
        let newer = rows.record::<K>(i);
        let number = newer.number();
        let id = Id {
            supplier: rows.supplier,
            number,
        };
        check_entry(&newer, &self.standing(id), year)?;
        Ok(number)
    }

    // The rows beside what stands under their numbers, as many as there is room for places. Where none is refused, the
    // places are those of the rows' numbers, in file order. The bound stays in these two clauses: a type for it would be no
    // plainer, since it would be made in `check` alone.
    fn check_rows(
        &self,
        rows: &Rows<'_>,
        year: u16,
        places: &mut [Place<K::Number>],
    ) -> Result<(), RegisterFault>
        requires { length places.old ≤ 4096 }
        ensures first { result_err result ≡ rows_refusal K.Kind.meaning rows.now.supplier (record_at K.Kind.meaning rows.now.supplier (row_in rows.now)) (take self.now.used self.now.entries.now) year (length places.old) }
        ensures noted { is_ok result ≡ true → Noted K.Kind.meaning rows.now.supplier (row_in rows.now) (length places.old) places.new }
    {
        for (i, place) in places.iter_mut().enumerate() {
            let row = i as u32;
            let number = self
                .check_row(rows, i, year)
                .map_err(|fault| RegisterFault::Row(row + 1, fault))?;
            *place = Place { number, row };
        }
        Ok(())
    }

    // A file beside the used entries, as many rows as there are places. Where nothing is refused, the answer is how many
    // entries stay beside the rows, and the places are those of the rows' numbers, sorted.
    pub(crate) fn check_file(
        &self,
        rows: &Rows<'_>,
        year: u16,
        places: &mut [Place<K::Number>],
    ) -> Result<usize, RegisterFault>
        requires { length places.old ≤ 4096 }
        ensures first { MatchResult result (Passes K.Kind.meaning rows.now.supplier (record_at K.Kind.meaning rows.now.supplier (row_in rows.now)) (take self.now.used self.now.entries.now) year (length places.old)) (λ e. register_fault K.Kind.meaning rows.now.supplier (record_at K.Kind.meaning rows.now.supplier (row_in rows.now)) (take self.now.used self.now.entries.now) year (length places.old) ≡ Some e) }
        ensures index { is_ok result ≡ true → Index K.Kind.meaning rows.now.supplier (row_in rows.now) K.Number.Ord.cmp places.new }
    {
        self.check_rows(rows, year, places)?;
        let _ = first_repeat(places);
        let run = self.run();
        let (own, stay) = staying(run, rows.supplier, year);
        check_missing::<K>(&run[own.start..own.end], places)?;
        Ok(stay)
    }
}
