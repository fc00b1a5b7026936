// The series that joins two stations.
ghost use Rattle.books.specs.Join.{Nearest, joined, joins, series_between, with_series};
ghost use Rattle.books.specs.State.{state_of};
ghost use Rattle.std.specs.Prelude.{◌≡◌, None, fold};

use crate::book::Book;
use kinds::series::SeriesTold;
use registers::entry::{Entry, Standing};

// Whether the ends of a series are these two stations, either way round.
fn is_between(told: &SeriesTold, one: u32, other: u32) -> bool
    ensures { result ≡ joins one other told.now }
{
    let ends = (told.departure.station, told.destination.station);
    ends == (one, other) || ends == (other, one)
}

// The route number and the number of an entry that is a live series between the stations.
fn series_between(entry: &Entry<u32, SeriesTold>, one: u32, other: u32) -> Option<(u32, u32)>
    ensures { result ≡ series_between one other entry.now }
{
    match &entry.standing {
        Standing::Live(told) if is_between(told, one, other) => {
            Some((told.route_number, entry.id.number))
        }
        _ => None,
    }
}

// The least route number, and among these the least number.
fn join_among(own: &[Entry<u32, SeriesTold>], one: u32, other: u32) -> Option<(u32, u32)>
    ensures { result ≡ fold (with_series one other) None own.now }
{
    own.iter()
        .filter_map(|entry| series_between(entry, one, other))
        .min()
}

impl Book<'_> {
    // The live series of a supplier between two stations, either way round, with the least route number, and among these
    // with the lowest number; none exactly when no live series joins them. The stations stay two parameters: a pair of them
    // would have an order.
    pub fn join(&self, supplier: u32, one: u32, other: u32) -> Option<u32>
        ensures value { result ≡ joined (state_of self.now).series supplier one other }
        ensures nearest { Nearest (state_of self.now).series supplier one other result }
    {
        join_among(self.series.own(supplier), one, other).map(|(_, number)| number)
    }
}
