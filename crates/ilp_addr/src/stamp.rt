//! The calendar text of a Prepare's expiry (RFC 0027, "ILP Prepare").

ghost use Rattle.std.specs.Prelude.{◌≡◌, ◌==◌, ◌≤◌, ◌<◌, ◌+◌, ◌/◌, ◌%◌, ℕ, All, is_some, IfOk, Ok, IfSome, length};
ghost use Rattle.std.specs.Char.{IsAsciiDigit, is_ascii_digit};
ghost use Rattle.std.specs.List.{list_all};
ghost use Rattle.ilp_addr.specs.Timestamp as spec;
ghost use Rattle.ilp_addr.specs.Timestamp.{IsTimestamp, latest_expiry, moment_of, timestamp_at, timestamp_of, has_date};
ghost use Rattle.ilp_addr.specs.Timestamp.{has_time, instant_on, nearest_moment, two_at, digit_at};

use crate::calendar::{date_of, day_number};
use crate::fault::AddrFault;

/// The milliseconds of a day.
const DAY_MILLIS: u64 = 86_400_000;

/// 9999-12-30T00:00:00 UTC, the latest moment that an expiry is read as, in milliseconds.
const LATEST_EXPIRY: u64 = 253_402_128_000_000;

/// The expiry of a Prepare, as text: `YYYYMMDDHHMMSSfff` in UTC (RFC 0027, "ILP Prepare").
pub struct Stamp;

impl Stamp {
    /// The moment that the text names, in milliseconds since 1970-01-01T00:00:00 UTC.
    ///
    /// A moment before 1970 is read as 0, and one after 9999-12-30T00:00 as that moment. The error
    /// is `NotADate` if the text is not 17 digits, the calendar has no such date, or the day has no
    /// such time.
    pub fn parse(text: &[u8; 17]) -> Result<u64, AddrFault>
        // What is read is a timestamp, and its moment.
        ensures found { IfOk result
            (λ moment. IsTimestamp text.now × (moment ≡ moment_of text.now)) }
        // Each timestamp is read.
        ensures only { IsTimestamp text.now → result ≡ Ok (moment_of text.now) }
        // Which answer comes.
        ensures exact { result ≡ timestamp_at text.now }
        ensures bound { IfOk result (λ moment. moment ≤ latest_expiry) }
    {
        if !are_digits(text) {
            return Err(AddrFault::NotADate);
        }
        parse_digits(text)
    }

    /// Writes the text of the moment, in milliseconds since 1970-01-01T00:00:00 UTC.
    pub fn write(moment: u64, out: &mut [u8])
        requires moment { moment ≤ latest_expiry }
        requires len { length out.old ≡ 17 }
        ensures { out.new ≡ timestamp_of moment }
    {
        let (year, month, day) = date_of((moment / DAY_MILLIS) as u32);
        let text = calendar_text(year, month, day, (moment % DAY_MILLIS) as u32);
        out.copy_from_slice(&text);
    }
}

#[tactic(auto, unfolding(crate::specs::Timestamp::calendar_text))]
fn calendar_text(year: u16, month: u8, day: u8, millis: u32) -> [u8; 17]
    requires year { year < 10_000 }
    requires month { month < 100 }
    requires day { day < 100 }
    requires millis { millis < 86_400_000 }
    ensures { result ≡ spec.calendar_text year month day millis }
{
    let (century, of_century) = (year as u32 / 100, year as u32 % 100);
    let (month, day) = (month as u32, day as u32);
    let (hour, minute, second) = (millis / 3_600_000, millis / 60_000 % 60, millis / 1000 % 60);
    let millisecond = millis % 1000;
    [
        tens(century),
        ones(century),
        tens(of_century),
        ones(of_century),
        tens(month),
        ones(month),
        tens(day),
        ones(day),
        tens(hour),
        ones(hour),
        tens(minute),
        ones(minute),
        tens(second),
        ones(second),
        b'0' + (millisecond / 100) as u8,
        tens(millisecond % 100),
        ones(millisecond % 100),
    ]
}

fn tens(number: u32) -> u8
    requires { number < 100 }
    ensures { result ≡ 48 + number / 10 }
{
    b'0' + (number / 10) as u8
}

fn ones(number: u32) -> u8
    ensures { result ≡ 48 + number % 10 }
{
    b'0' + (number % 10) as u8
}

// 0 of a digit, and more of any other byte.
fn past_digits(byte: u8) -> u8
    ensures { (result == 0) ≡ is_ascii_digit byte }
{
    byte.wrapping_sub(b'0').saturating_sub(9)
}

// It goes on after a byte that is no digit, so that many are tested at a time.
fn are_digits(text: &[u8; 17]) -> bool
    ensures { result ≡ list_all is_ascii_digit text.now }
{
    let mut worst: u8 = 0;
    for byte in text {
        worst = worst.max(past_digits(*byte));
    }
    worst == 0
}

fn digit(text: &[u8], place: usize) -> u8
    requires digits { All IsAsciiDigit text.now }
    requires place { place < length text.now }
    ensures value { result ≡ digit_at text.now place }
    ensures bound { result < 10 }
{
    text[place] - b'0'
}

fn two(text: &[u8], place: usize) -> u8
    requires digits { All IsAsciiDigit text.now }
    requires place { place + 1 < length text.now }
    ensures value { result ≡ two_at text.now place }
    ensures bound { result < 100 }
{
    10 * digit(text, place) + digit(text, place + 1)
}

#[tactic(auto, unfolding(crate::specs::Timestamp::year_of))]
fn day_number_of(text: &[u8; 17]) -> Option<i32>
    requires { All IsAsciiDigit text.now }
    ensures found { is_some result ≡ has_date text.now }
    ensures value { IfSome result (λ n. n ≡ spec.day_number_of text.now) }
{
    let year = 100 * two(text, 0) as u16 + two(text, 2) as u16;
    day_number(year, two(text, 4), two(text, 6))
}

#[tactic(auto, unfolding(crate::specs::Timestamp::millisecond_of, crate::specs::Timestamp::millis_of_day))]
fn millis_of_day(text: &[u8; 17]) -> Option<u32>
    requires { All IsAsciiDigit text.now }
    ensures found { is_some result ≡ has_time text.now }
    ensures value { IfSome result (λ n. n ≡ spec.millis_of_day text.now) }
    ensures bound { IfSome result (λ n. n < 86_400_000) }
{
    let (hour, minute, second) = (two(text, 8), two(text, 10), two(text, 12));
    if hour >= 24 || minute >= 60 || second >= 60 {
        return None;
    }
    let millis = 100 * digit(text, 14) as u32 + two(text, 15) as u32;
    Some(3_600_000 * hour as u32 + 60_000 * minute as u32 + 1000 * second as u32 + millis)
}

#[tactic(auto, unfolding(crate::specs::Timestamp::instant_on))]
fn nearest(day: i32, millis: u32) -> u64
    requires { millis < 86_400_000 }
    ensures value { result ≡ nearest_moment (instant_on day millis) }
    ensures bound { result ≤ latest_expiry }
{
    if day < 0 {
        return 0;
    }
    (DAY_MILLIS * day as u64 + millis as u64).min(LATEST_EXPIRY)
}

fn parse_digits(text: &[u8; 17]) -> Result<u64, AddrFault>
    requires { All IsAsciiDigit text.now }
    ensures exact { result ≡ timestamp_at text.now }
    ensures bound { IfOk result (λ moment. moment ≤ latest_expiry) }
{
    let (Some(day), Some(millis)) = (day_number_of(text), millis_of_day(text)) else {
        return Err(AddrFault::NotADate);
    };
    Ok(nearest(day, millis))
}
