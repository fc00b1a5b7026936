// An entry of a book: what stands under a number of a supplier.
ghost use Rattle.std.specs.Prelude.{◌≡◌, ◌+◌, nat_lt};

// A number of a supplier. Ids are ordered by supplier, and then by number.
#[derive(Clone, Copy, PartialEq, Eq, PartialOrd, Ord)]
pub struct Id<N> {
    pub supplier: u32,
    pub number: N,
}

#[derive(Clone, Copy)]
pub enum Standing<T> {
    // on sale, with its told fields
    Live(T),
    // withdrawn, with its year of deletion
    Retired(u16),
}

// Whether a number that was retired in one year is still blocked in another.
pub(crate) fn is_blocked(retired: u16, year: u16) -> bool
    ensures { result ≡ nat_lt year (retired + 3) }
{
    u32::from(year) < u32::from(retired) + 3
}

// Entries are ordered by their ids alone.
#[derive(Clone, Copy)]
#[derive_where(PartialEq, Eq, PartialOrd, Ord; N)]
pub struct Entry<N, T> {
    pub id: Id<N>,
    #[derive_where(skip)]
    pub standing: Standing<T>,
}
