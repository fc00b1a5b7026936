// Opening a book, and admitting a sound delivery.
ghost use Rattle.std.specs.Prelude.{◌≡◌, ℕ, true, length, is_ok, if◌then◌else◌, Some, None, MatchResult};
ghost use Rattle.books.specs.Admission.{Admitted, Opened, book_fault, first_of, lettered};
ghost use Rattle.books.specs.declared.fault.BookFault.TheVariants.{Full};
ghost use Rattle.books.specs.Places.{Places};
ghost use Rattle.books.specs.State.{state_of};
ghost use Rattle.deliveries.specs.Delivery.{series_count, station_count, table_count};
ghost use Rattle.std.specs.Result.{result_err, result_ok};

use crate::book::Book;
use crate::fault::{BookFault, LineFault};
use crate::lines::Lines;
use deliveries::delivery::Delivery;
use files::reading::MOST_ROWS;
use indexes::Place;
use kinds::fare_table::{FareTable, FareTableTold};
use kinds::kind::Kind;
use kinds::series::{Series, SeriesTold};
use kinds::station::{Station, StationTold};
use registers::entry::Entry;
use registers::fault::RegisterFault;
use registers::register::Register;

// A register's fault with the file's letter.
fn in_file(letter: char, checked: Result<bool, RegisterFault>) -> Result<bool, BookFault>
    ensures { result ≡ lettered letter checked }
{
    checked.map_err(|fault| BookFault::Entry(letter, fault))
}

fn check_room(letter: char, fits: bool) -> Result<(), BookFault>
    ensures { result_err result ≡ (if fits then None else Some (Full letter)) }
{
    if fits {
        Ok(())
    } else {
        Err(BookFault::Full(letter))
    }
}

// The first fault of the line, the three files and the three runs.
fn first_fault(
    line: Result<(), LineFault>,
    stations: Result<bool, RegisterFault>,
    series: Result<bool, RegisterFault>,
    tables: Result<bool, RegisterFault>,
) -> Result<(), BookFault>
    ensures { result_err result ≡ first_of line stations series tables }
{
    line?;
    let stations_fit = in_file(Station::LETTER, stations)?;
    let series_fit = in_file(Series::LETTER, series)?;
    let tables_fit = in_file(FareTable::LETTER, tables)?;
    check_room(Station::LETTER, stations_fit)?;
    check_room(Series::LETTER, series_fit)?;
    check_room(FareTable::LETTER, tables_fit)
}

impl<'a> Book<'a> {
    // Lends three runs to a book, which begins without entries, lines and receipts.
    pub fn open(
        stations: &'a mut [Entry<u32, StationTold>],
        series: &'a mut [Entry<u32, SeriesTold>],
        tables: &'a mut [Entry<u32, FareTableTold>],
    ) -> Book<'a>
        ensures opened { Opened (state_of result) }
        ensures rooms { ((state_of result).station_room ≡ length stations.old) × ((state_of result).series_room ≡ length series.old) × ((state_of result).table_room ≡ length tables.old) }
    {
        Book {
            stations: Register::open(stations),
            series: Register::open(series),
            tables: Register::open(tables),
            lines: Lines::open(),
        }
    }

    // The first fault of a delivery. Where there is none, the places are those of its rows' numbers, sorted. The places stay
    // three parameters: their lengths are the delivery's counts, so a struct with these facts would hold the delivery too.
    fn judge(
        &self,
        delivery: &Delivery<'_>,
        stations: &mut [Place<u32>],
        series: &mut [Place<u32>],
        tables: &mut [Place<u32>],
    ) -> Result<(), BookFault>
        requires stations { length stations.old ≡ station_count delivery.now.bytes.now }
        requires series { length series.old ≡ series_count delivery.now.bytes.now }
        requires tables { length tables.old ≡ table_count delivery.now.bytes.now }
        ensures fault { result_err result ≡ book_fault (state_of self.now) delivery.now.head delivery.now.bytes.now }
        ensures index { is_ok result ≡ true → Places delivery.now.bytes.now stations.new series.new tables.new }
    {
        let head = delivery.head();
        let files = delivery.files();
        let year = head.first_day.year();
        first_fault(
            self.lines.check(&head),
            self.stations.check(&files.stations, year, stations),
            self.series.check(&files.series, year, series),
            self.tables.check(&files.tables, year, tables),
        )
    }

    // Enters a delivery that has no fault, by the places of its rows' numbers, and answers the next receipt.
    fn enter(
        &mut self,
        delivery: &Delivery<'_>,
        stations: &[Place<u32>],
        series: &[Place<u32>],
        tables: &[Place<u32>],
    ) -> u32
        requires none { book_fault (state_of self.old) delivery.now.head delivery.now.bytes.now ≡ None }
        requires places { Places delivery.now.bytes.now stations.now series.now tables.now }
        ensures receipt { result ≡ (state_of self.new).receipts }
        ensures admitted { Admitted (state_of self.old) delivery.now.head delivery.now.bytes.now (state_of self.new) }
    {
        let head = delivery.head();
        let files = delivery.files();
        let year = head.first_day.year();
        self.stations.enter(&files.stations, year, stations);
        self.series.enter(&files.series, year, series);
        self.tables.enter(&files.tables, year, tables);
        self.lines.note(&head)
    }

    // Admits a sound delivery and answers the next receipt; the first fault of another, and the book is as it was.
    pub fn admit(&mut self, delivery: &Delivery<'_>) -> Result<u32, BookFault>
        ensures { MatchResult result (λ n. (book_fault (state_of self.old) delivery.now.head delivery.now.bytes.now ≡ None) × (n ≡ (state_of self.new).receipts) × Admitted (state_of self.old) delivery.now.head delivery.now.bytes.now (state_of self.new)) (λ e. (book_fault (state_of self.old) delivery.now.head delivery.now.bytes.now ≡ Some e) × (self.new ≡ self.old)) }
    {
        let head = delivery.head();
        // on the stack, since the library has no heap
        let empty = Place { number: 0, row: 0 };
        let mut stations = [empty; MOST_ROWS];
        let mut series = [empty; MOST_ROWS];
        let mut tables = [empty; MOST_ROWS];
        let stations = &mut stations[0..head.stations.rows as usize];
        let series = &mut series[0..head.series.rows as usize];
        let tables = &mut tables[0..head.tables.rows as usize];
        self.judge(delivery, stations, series, tables)?;
        Ok(self.enter(delivery, stations, series, tables))
    }
}
