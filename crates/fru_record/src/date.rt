ghost use Rattle.std.specs.Prelude.{◌≡◌, ◌<◌, ◌+◌, ◌%◌, ◌^◌};
ghost use Rattle.fru_record.specs.Dates.{minutes_limit, manufacture_day, date_text, IsDay};

use fru_area::FieldText;
use jiff::ToSpan;
use jiff::civil::{Date, date};

// The first minute that 24 bits do not hold.
pub(crate) const MINUTES_LIMIT: u32 = 1 << 24;

/// Prints the date of minutes since 1996-01-01 00:00 as `YYYY-MM-DD HH:MM` (FRU definition 1.0, section
/// 11). The civil date is jiff's.
pub fn date_field(minutes: u32) -> FieldText
    requires { minutes < minutes_limit }
    ensures { result ≡ date_text minutes }
{
    let text = date_bytes(manufacture_date(minutes), minutes);
    FieldText::new(str::from_utf8(&text).unwrap()).unwrap()
}

// Prints a date and the time of its minutes.
fn date_bytes(date: Date, minutes: u32) -> [u8; 16]
    requires short { minutes < minutes_limit }
    requires same { IsDay (manufacture_day minutes) date }
    ensures { result ≡ date_text minutes }
{
    let year = date.year() as u32;
    let month = date.month() as u32;
    let day = date.day() as u32;
    let hour = minutes / 60 % 24;
    let minute = minutes % 60;
    [
        digit(year / 1000),
        digit(year / 100),
        digit(year / 10),
        digit(year),
        b'-',
        digit(month / 10),
        digit(month),
        b'-',
        digit(day / 10),
        digit(day),
        b' ',
        digit(hour / 10),
        digit(hour),
        b':',
        digit(minute / 10),
        digit(minute),
    ]
}

// Returns the day of minutes since 1996-01-01 00:00.
fn manufacture_date(minutes: u32) -> Date
    requires { minutes < minutes_limit }
    ensures { IsDay (manufacture_day minutes) result }
{
    let days = i64::from(minutes / 1440);
    date(1996, 1, 1).checked_add(days.days()).unwrap()
}

// Returns the last digit of a number.
fn digit(n: u32) -> u8
    ensures { result ≡ 48 + n % 10 }
{
    b'0' + (n % 10) as u8
}
