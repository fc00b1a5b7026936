// Finding what stands under a number.
ghost use Rattle.books.specs.Find.{found_as, told_as};
ghost use Rattle.books.specs.State.{State, state_of};
ghost use Rattle.kinds.specs.FareTable.{fare_table_meaning};
ghost use Rattle.kinds.specs.Series.{series_meaning};
ghost use Rattle.kinds.specs.Station.{station_meaning};
ghost use Rattle.registers.specs.Entries.{standing};
ghost use Rattle.registers.specs.Ids.{compare_ids};
ghost use Rattle.registers.specs.declared.entry.Entry.{Entry};
ghost use Rattle.std.specs.Prelude.{◌≡◌, List};

use crate::book::Book;
use kinds::fare_table::{FareTable, FareTableTold};
use kinds::kind::Kind;
use kinds::series::{Series, SeriesTold};
use kinds::station::{Station, StationTold};
use registers::entry::{Id, Standing};

// The told fields do not stand in `Live`: by the rules they go into the record that the caller lends, so the answer is small and
// copies none.
#[derive(Clone, Copy, PartialEq, Eq, Debug)]
pub enum Found {
    // the number is live
    Live,
    // the year of deletion, and the first year in which the number is free
    Retired((u32, u32)),
    // no entry bears the number
    Unknown,
}

// A kind of which the book has a register. Each kind writes `standing` itself: a method that lent its register in place of
// it would be as long in each, since its clause has to be written out too.
pub trait Booked: Kind {
    ghost run: { State → List (Entry Self.Number Self.Told) };

    fn standing(book: &Book<'_>, id: Id<Self::Number>) -> Option<Standing<Self::Told>>
        ensures { result ≡ standing (compare_ids Self.Kind.meaning.numbers) (run (state_of book.now)) id };
}

impl Booked for Station {
    ghost run = { λ st. st.stations };

    fn standing(book: &Book<'_>, id: Id<u32>) -> Option<Standing<StationTold>>
        ensures { result ≡ standing (compare_ids station_meaning.numbers) (state_of book.now).stations id }
    {
        book.stations.standing(id)
    }
}

impl Booked for Series {
    ghost run = { λ st. st.series };

    fn standing(book: &Book<'_>, id: Id<u32>) -> Option<Standing<SeriesTold>>
        ensures { result ≡ standing (compare_ids series_meaning.numbers) (state_of book.now).series id }
    {
        book.series.standing(id)
    }
}

impl Booked for FareTable {
    ghost run = { λ st. st.tables };

    fn standing(book: &Book<'_>, id: Id<u32>) -> Option<Standing<FareTableTold>>
        ensures { result ≡ standing (compare_ids fare_table_meaning.numbers) (state_of book.now).tables id }
    {
        book.tables.standing(id)
    }
}

// Fills the lent record with a live number's told fields, and says how the number stands.
fn answer<T: Copy>(standing: Option<Standing<T>>, into: &mut T) -> Found
    ensures answer { result ≡ found_as standing }
    ensures told { into.new ≡ told_as standing into.old }
{
    match standing {
        Some(Standing::Live(told)) => {
            *into = told;
            Found::Live
        }
        Some(Standing::Retired(year)) => {
            let year = u32::from(year);
            Found::Retired((year, year + 3))
        }
        None => Found::Unknown,
    }
}

impl Book<'_> {
    // How a number of a supplier stands: live, and its told fields are in the lent record; retired, with the year of
    // deletion and the first free year; or unknown. The lent record changes only where the number is live.
    pub fn find<K: Booked>(&self, supplier: u32, number: K::Number, into: &mut K::Told) -> Found
        ensures answer { result ≡ found_as (standing (compare_ids K.Kind.meaning.numbers) (K.Booked.run (state_of self.now)) (record { supplier = supplier; number = number })) }
        ensures told { into.new ≡ told_as (standing (compare_ids K.Kind.meaning.numbers) (K.Booked.run (state_of self.now)) (record { supplier = supplier; number = number })) into.old }
    {
        answer(K::standing(self, Id { supplier, number }), into)
    }
}
