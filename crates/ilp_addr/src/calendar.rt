//! Days of the Gregorian calendar.

ghost use Rattle.std.specs.Prelude.{◌≡◌, ◌<◌, ◌≤◌, ◌≤ℤ◌, ◌↔◌, pos, IsSome, IfSome};
ghost use Rattle.jiff_core.specs.Calendar.{days_from_civil, IsDate, IsCivilDate};

use jiff::civil::Date;

/// The days from 1970-01-01 to the date, negative before it, or `None` if the calendar has no such
/// date.
pub(crate) fn day_number(year: u16, month: u8, day: u8) -> Option<i32>
    requires year { year ≤ 9999 }
    requires month { month < 100 }
    requires day { day < 100 }
    ensures date { IsSome result ↔ IsDate (pos year) (pos month) (pos day) }
    ensures value { IfSome result (λ n. n ≡ days_from_civil (pos year) month day) }
{
    match Date::new(year as i16, month as i8, day as i8) {
        Ok(date) => Some(date.to_plain().to_unix_epoch_day()),
        Err(_) => None,
    }
}

/// The year, the month and the day of the month, that many days after 1970-01-01.
pub(crate) fn date_of(days: u32) -> (u16, u8, u8)
    requires { days ≤ 2_932_896 }
    ensures date { IsCivilDate (pos result.0) result.1 result.2 }
    ensures number { days_from_civil (pos result.0) result.1 result.2 ≡ pos days }
{
    let date = jiff_core::civil::Date::from_days_since_min(days + 4_371_587);
    (unsigned_year(date.year), date.month, date.day)
}

fn unsigned_year(year: i16) -> u16
    requires { pos 0 ≤ℤ year }
    ensures { pos result ≡ year }
{
    year as u16
}
