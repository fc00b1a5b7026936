// A day of the calendar.
ghost use Rattle.std.specs.Prelude.{◌≡◌, ◌+◌, ◌*◌, true, Some, decimal};
ghost use Rattle.fields.specs.Calendar.{date, day_of, days, leap, on_calendar, within};
ghost use Rattle.std.specs.Option.{option_map};

use crate::bytes::number_in;
use crate::class::Class;
use std::fmt;

// A day of the Gregorian calendar in the years 2000 to 9999, and nothing else.
#[derive(Clone, Copy, PartialEq, Eq, PartialOrd, Ord, Debug)]
pub struct Date {
    year: u16,
    month: u8,
    day: u8,
    ghost real: { on_calendar year month day ≡ true },
}

fn is_leap(year: u32) -> bool
    ensures { result ≡ leap year }
{
    year % 4 == 0 && (year % 100 != 0 || year % 400 == 0)
}

fn days_of(year: u32, month: u32) -> u32
    ensures { result ≡ days year month }
{
    match month {
        2 if is_leap(year) => 29,
        2 => 28,
        4 | 6 | 9 | 11 => 30,
        _ => 31,
    }
}

fn is_within(low: u32, high: u32, n: u32) -> bool
    ensures { result ≡ within low high n }
{
    low <= n && n <= high
}

#[tactic(auto, using(std::proofs::lemmas::Bool::Decides::nat_tests), unfolding(crate::specs::Calendar::on_calendar))]
fn is_real(year: u32, month: u32, day: u32) -> bool
    ensures { result ≡ on_calendar year month day }
{
    is_within(2000, 9999, year)
        && is_within(1, 12, month)
        && is_within(1, days_of(year, month), day)
}

impl Date {
    #[tactic(auto, using(crate::proofs::Days::day_bounds), unfolding(crate::specs::Calendar::day_of))]
    pub fn new(year: u32, month: u32, day: u32) -> Option<Date>
        ensures { option_map (λ d. (d.year, d.month, d.day)) result ≡ day_of year month day }
    {
        if is_real(year, month, day) {
            Some(Date {
                year: year as u16,
                month: month as u8,
                day: day as u8,
            })
        } else {
            None
        }
    }

    // The day that eight columns YYYYMMDD write.
    #[tactic(auto, using(std::proofs::lemmas::Bool::Decides::nat_tests), unfolding(crate::specs::Calendar::date))]
    pub fn read(bytes: &[u8]) -> Option<Date>
        ensures { option_map (λ d. (d.year, d.month, d.day)) result ≡ date bytes.now }
    {
        if bytes.len() != 8 || !Class::Digit.spans(bytes) {
            return None;
        }
        Date::new(
            number_in(bytes, 1, 4),
            number_in(bytes, 5, 6),
            number_in(bytes, 7, 8),
        )
    }

    pub fn year(&self) -> u16
        ensures { result ≡ self.now.year }
    {
        self.year
    }
}

impl fmt::Display for Date {
    ghost output = { λ d. Some (decimal (d.year * 10000 + d.month * 100 + d.day)) };

    fn fmt<W: fmt::Write>(&self, f: &mut fmt::Formatter<W>) -> fmt::Result {
        let digits = u32::from(self.year) * 10000
            + u32::from(self.month) * 100
            + u32::from(self.day);
        write!(f, "{digits}")
    }
}
