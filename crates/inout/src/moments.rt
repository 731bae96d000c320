//! The text of a moment.

ghost use Rattle.std.specs.Prelude.{◌≡◌, ◌<◌, ◌∷◌, ◌++◌, false, List, ℕ, true, string_bytes};
ghost use Rattle.std.specs.Prelude.{IfOk, MatchOption, OnOk};
ghost use Rattle.jiff_core.specs.Date.{epoch_day};
ghost use Rattle.moment.specs.Moment.{IsMomentText, two_digits};
ghost use Rattle.inout.specs.Moments as spec;

use jiff_core::civil::Date;
use moment::Moment;
use std::alloc::{AllocError, Global};

/// The day number of 1 January of the year 0.
const FIRST_DAY: i32 = -719_528;

/// The day number of 31 December 9999.
const LAST_DAY: i32 = 2_932_896;

const SECONDS_OF_DAY: u32 = 86_400;

/// Returns the text of the moment, `YYYY-MM-DDTHH:MM:SSZ`, as `expires` has it (TUF 1.0 section
/// 4.2.1), or the empty text for a moment outside the years 0 to 9999, which no text spells. Fails
/// only if out of memory.
pub fn moment_text(alloc: Global, moment: Moment) -> Result<String, AllocError>
    ensures text { IfOk result (λ text. string_bytes text ≡ spec.moment_text moment) }
    ensures spelled { IfOk result (λ text. (other : List ℕ) → IsMomentText other moment
        → string_bytes text ≡ other) }
{
    match date_of(moment) {
        Some(date) => text_on(alloc, date, moment),
        None => Ok(String::new(alloc)),
    }
}

/// Returns the date of a moment that has a text.
fn date_of(moment: Moment) -> Option<Date>
    ensures date { MatchOption result (spec.has_text moment ≡ false)
        (λ d. (epoch_day d ≡ moment.day) × (spec.has_text moment ≡ true)) }
{
    if moment.second() >= SECONDS_OF_DAY {
        return None;
    }
    let day = moment.day();
    if !(FIRST_DAY..=LAST_DAY).contains(&day) {
        return None;
    }
    let Ok(date) = Date::from_unix_epoch_day(i64::from(day)) else {
        unreachable!()
    };
    Some(date)
}

/// Returns the text of a moment on that date.
#[tactic(auto, using(crate::proofs::Spelling::dated, crate::proofs::Spelling::second_below))]
fn text_on(alloc: Global, date: Date, moment: Moment) -> Result<String, AllocError>
    requires day { epoch_day date ≡ moment.day }
    requires has_text { spec.has_text moment ≡ true }
    ensures text { IfOk result (λ text. string_bytes text ≡ spec.moment_text moment) }
{
    let year = date.year.unsigned_abs();
    text_at(alloc, year, date.month, date.day, moment.second())
}

/// Returns a date and a second of the day as `YYYY-MM-DDTHH:MM:SSZ`.
fn text_at(alloc: Global, year: u16, month: u8, day: u8, second: u32) -> Result<String, AllocError>
    requires year_fits { year < 10_000 }
    requires month_fits { month < 100 }
    requires day_fits { day < 100 }
    requires second_fits { second < 86_400 }
    ensures text { IfOk result (λ text. string_bytes text
        ≡ spec.text_at year month day second) }
{
    let mut text = String::new(alloc);
    push_two(&mut text, (year / 100) as u8)?;
    push_two(&mut text, (year % 100) as u8)?;
    push_part(&mut text, '-', month)?;
    push_part(&mut text, '-', day)?;
    push_part(&mut text, 'T', (second / 3600) as u8)?;
    push_part(&mut text, ':', (second / 60 % 60) as u8)?;
    push_part(&mut text, ':', (second % 60) as u8)?;
    text.push('Z')?;
    Ok(text)
}

/// Adds a mark, and a number below 100 in two digits.
fn push_part(text: &mut String, mark: char, number: u8) -> Result<(), AllocError>
    requires plain { mark < 128 }
    requires fits { number < 100 }
    ensures part { OnOk result (string_bytes text.new
        ≡ string_bytes text.old ++ mark ∷ two_digits number) }
{
    text.push(mark)?;
    push_two(text, number)
}

/// Adds a number below 100 in two digits.
fn push_two(text: &mut String, number: u8) -> Result<(), AllocError>
    requires fits { number < 100 }
    ensures digits { OnOk result (string_bytes text.new
        ≡ string_bytes text.old ++ two_digits number) }
{
    text.push(char::from(b'0' + number / 10))?;
    text.push(char::from(b'0' + number % 10))
}
