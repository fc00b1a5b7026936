// The book of all suppliers: three registers and the lines.
use crate::lines::Lines;
use kinds::fare_table::FareTable;
use kinds::series::Series;
use kinds::station::Station;
use registers::register::Register;

// What a book needs and keeps stands in the types of its parts: no number twice in a run, and one line a supplier.
#[derive(Drop)]
pub struct Book<'a> {
    pub(crate) stations: Register<'a, Station>,
    pub(crate) series: Register<'a, Series>,
    pub(crate) tables: Register<'a, FareTable>,
    pub(crate) lines: Lines,
}
