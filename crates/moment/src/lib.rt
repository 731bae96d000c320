//! Moments of the calendar, and the text that `expires` has (TUF 1.0 section 4.2.1).
#![tactic(auto)]

ghost use Rattle.std.specs.Prelude.{◌≡◌, ◌+◌, ◌*◌, ◌/◌, ◌%◌, ◌<◌, ◌≤◌, pos, IfSome, IsNone, IsSome};
ghost use Rattle.std.specs.Prelude.{◌↔◌, [], ◌∷◌, ℕ};
ghost use Rattle.jiff_core.specs.Calendar.{IsDate, days_from_civil};
ghost use Rattle.moment.specs.Moment as spec;
ghost use Rattle.moment.specs.declared.Stamp.{Stamp};

use jiff_core::civil::Date;
use std::marker::Model;

/// The day number of 31 December 9999.
const LAST_DAY: u64 = 2_932_896;

const SECONDS_OF_DAY: u64 = 86_400;

/// A second of the calendar, in UTC.
#[derive(Clone, Copy, Debug, PartialEq, Eq, PartialOrd, Ord)]
pub struct Moment {
    day: i32,
    second: u32,
}

impl Model for Moment {
    ghost use Rattle.moment.specs.Moment as spec;

    ghost Value = { spec.Moment };

    ghost view = { λ m. record { day = m.day; second = m.second } };

    ghost inverse = { λ m. record { day = m.day; second = m.second } };
}

/// A date and a time of day, in the calendar or not.
#[derive(Drop)]
struct Stamp {
    year: u16,
    month: u8,
    day: u8,
    hour: u8,
    minute: u8,
    second: u8,
}

impl Moment {
    /// Returns the moment that a text of the form `YYYY-MM-DDTHH:MM:SSZ` encodes, for a real date
    /// from year 0000 to 9999, hours 00 to 23, and minutes and seconds 00 to 59 (TUF 1.0 section
    /// 4.2.1). Returns None for any other text.
    pub fn read(text: &str) -> Option<Moment>
        ensures value { result ≡ spec.moment_of text.now }
        ensures some { IfSome result (λ m. spec.IsMomentText text.now m) }
        ensures none { IsNone result → (m : spec.Moment)
            → spec.IsMomentText text.now m → ⊥ }
    {
        let stamp = stamp_of(text)?;
        let second = second_of_day(stamp.hour, stamp.minute, stamp.second)?;
        let day = day_number(stamp.year, stamp.month, stamp.day)?;
        Some(Moment { day, second })
    }

    /// Returns the moment that many seconds after 1970-01-01T00:00:00Z, or None past the year 9999.
    pub fn at(seconds: u64) -> Option<Moment>
        ensures some { IsSome result ↔ (seconds / 86_400 ≤ 2_932_896) }
        ensures day { IfSome result (λ m. m.day ≡ pos (seconds / 86_400)) }
        ensures second { IfSome result (λ m. m.second ≡ seconds % 86_400) }
    {
        let days = seconds / SECONDS_OF_DAY;
        if days > LAST_DAY {
            return None;
        }
        Some(Moment {
            day: days as i32,
            second: (seconds % SECONDS_OF_DAY) as u32,
        })
    }

    /// Returns the days since 1970-01-01, negative before it.
    pub fn day(&self) -> i32
        ensures value { result ≡ self.now.day }
    {
        self.day
    }

    /// Returns the seconds since midnight.
    pub fn second(&self) -> u32
        ensures value { result ≡ self.now.second }
    {
        self.second
    }

    /// Returns whether this moment comes before the other; no moment comes before itself.
    pub fn is_before(self, other: Moment) -> bool
        ensures order { result ≡ spec.is_before self other }
    {
        self < other
    }
}

/// Returns the date and the time of day that a text of that form encodes, in the calendar or not.
fn stamp_of(text: &str) -> Option<Stamp>
    ensures some { IfSome result (λ s. spec.FitsDigits s × (text.now ≡ spec.stamp_text s)) }
    ensures none { IsNone result → (s : Stamp) → spec.FitsDigits s
        → text.now ≡ spec.stamp_text s → ⊥ }
{
    let [
        y1,
        y2,
        y3,
        y4,
        b'-',
        m1,
        m2,
        b'-',
        d1,
        d2,
        b'T',
        h1,
        h2,
        b':',
        i1,
        i2,
        b':',
        s1,
        s2,
        b'Z',
    ] = text.as_bytes()
    else {
        return None;
    };
    Some(Stamp {
        year: 100 * u16::from(number(*y1, *y2)?) + u16::from(number(*y3, *y4)?),
        month: number(*m1, *m2)?,
        day: number(*d1, *d2)?,
        hour: number(*h1, *h2)?,
        minute: number(*i1, *i2)?,
        second: number(*s1, *s2)?,
    })
}

/// Returns the number that two decimal digits encode.
fn number(tens: u8, ones: u8) -> Option<u8>
    ensures value { IfSome result (λ n. (n < 100)
        × (spec.two_digits n ≡ tens ∷ ones ∷ [])) }
    ensures none { IsNone result → (n : ℕ) → n < 100
        → spec.two_digits n ≡ tens ∷ ones ∷ [] → ⊥ }
{
    match (tens, ones) {
        (b'0'..=b'9', b'0'..=b'9') => Some(10 * (tens - b'0') + (ones - b'0')),
        _ => None,
    }
}

/// Returns the seconds from midnight to that time of day.
fn second_of_day(hour: u8, minute: u8, second: u8) -> Option<u32>
    ensures value { IfSome result (λ n. (hour < 24) × (minute < 60) × (second < 60)
        × (n ≡ 3600 * hour + 60 * minute + second)) }
    ensures none { IsNone result → hour < 24 → minute < 60 → second < 60 → ⊥ }
{
    if hour >= 24 || minute >= 60 || second >= 60 {
        return None;
    }
    Some(3600 * u32::from(hour) + 60 * u32::from(minute) + u32::from(second))
}

/// Returns the day number of that date, if the calendar has it.
fn day_number(year: u16, month: u8, day: u8) -> Option<i32>
    requires year_fits { year < 10_000 }
    requires month_fits { month < 100 }
    requires day_fits { day < 100 }
    ensures value { IfSome result (λ n. IsDate (pos year) (pos month) (pos day)
        × (n ≡ days_from_civil (pos year) month day)) }
    ensures none { IsNone result → IsDate (pos year) (pos month) (pos day) → ⊥ }
{
    match Date::new(year as i16, month as i8, day as i8) {
        Ok(date) => Some(date.to_unix_epoch_day()),
        Err(_) => None,
    }
}
