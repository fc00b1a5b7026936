// The series of a delivery beside its stations.
ghost use Rattle.std.specs.Prelude.{◌≡◌, length};
ghost use Rattle.deliveries.specs.Across.{end_fault, series_fault, station_of};
ghost use Rattle.deliveries.specs.Delivery.{beside};
ghost use Rattle.files.specs.First.{first};
ghost use Rattle.files.specs.Files.{Indexed, SoundRows};
ghost use Rattle.files.specs.Rows.{record_in, row_in};
ghost use Rattle.indexes.specs.Places.{SortedPlaces};
ghost use Rattle.kinds.specs.Series.{series_meaning};
ghost use Rattle.kinds.specs.Station.{station_meaning};
ghost use Rattle.std.specs.Cmp.{nat_cmp_total};
ghost use Rattle.std.specs.Result.{result_err};

use crate::fault::{AcrossFault, DeliveryFault};
use files::rows::Rows;
use indexes::{Place, row_of};
use kinds::series::{End, Series};
use kinds::station::Station;

// The numbers of the fields that hold the code and the designation of a series' end.
struct EndFields {
    code: u8,
    designation: u8,
}

const DEPARTURE: EndFields = EndFields {
    code: 6,
    designation: 8,
};

const DESTINATION: EndFields = EndFields {
    code: 10,
    designation: 12,
};

// Sound station rows, as many as there are places, and the places of their numbers, sorted.
#[derive(Clone, Copy)]
pub(crate) struct Stations<'a> {
    pub(crate) rows: Rows<'a>,
    pub(crate) places: &'a [Place<u32>],
    ghost index: { ∥ Indexed station_meaning rows.supplier (row_in rows) (length places.now) places.now ∥₁ },
    ghost sorted: { SortedPlaces nat_cmp_total places.now },
    ghost sound: { ∥ SoundRows station_meaning rows.supplier (row_in rows) (length places.now) ∥₁ },
}

impl<'a> Stations<'a> {
    // The station with this code whose key flag is 0 or 1.
    fn with(&self, code: u32) -> Option<Station>
        ensures { result ≡ station_of (record_in station_meaning self.now.rows) (length self.now.places.now) code }
    {
        let row = row_of(self.places, code)?;
        let station = self.rows.record::<Station>(row as usize);
        station.key_flag.stays().then_some(station)
    }

    // Whether an end of a series names a station that stays and bears its designation.
    fn check_end(&self, end: &End, fields: &EndFields, series: u32) -> Result<(), AcrossFault>
        ensures { result_err result ≡ end_fault end.now fields.now.code fields.now.designation series (station_of (record_in station_meaning self.now.rows) (length self.now.places.now) end.now.station) }
    {
        let station = self
            .with(end.station)
            .ok_or(AcrossFault::NoStation(fields.code, series))?;
        if end.designation != station.told.designation {
            return Err(AcrossFault::OtherDesignation(fields.designation, series));
        }
        Ok(())
    }

    // Whether a series that stays fits its stations: its departure, and then its destination.
    fn check_series(&self, series: &Series) -> Result<(), AcrossFault>
        ensures { result_err result ≡ series_fault (record_in station_meaning self.now.rows) (length self.now.places.now) series.now }
    {
        if !series.key_flag.stays() {
            return Ok(());
        }
        let told = &series.told;
        self.check_end(&told.departure, &DEPARTURE, series.number)?;
        self.check_end(&told.destination, &DESTINATION, series.number)
    }

    // The first of so many series that does not fit the stations. Its `for` runs over row numbers: an iterator of the records
    // would be a type of its own for this one caller.
    pub(crate) fn check_across(&self, series: &Rows<'_>, count: u32) -> Result<(), DeliveryFault>
        ensures { result_err result ≡ beside (first (λ k. series_fault (record_in station_meaning self.now.rows) (length self.now.places.now) (record_in series_meaning series.now k)) count) }
    {
        for i in 0..count {
            let row = i + 1;
            let record = series.record::<Series>(i as usize);
            self.check_series(&record)
                .map_err(|fault| DeliveryFault::Across(row, fault))?;
        }
        Ok(())
    }
}
