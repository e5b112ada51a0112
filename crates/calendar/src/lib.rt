// The calendar: whether a number is a day of 1970 to 2099, written as YYYYMMDD.
#![tactic(auto)]

ghost use Rattle.std.specs.Prelude.{◌≡◌};
ghost use Rattle.calendar.specs.Calendar.{leap, days_in, is_day, day_refusal};
ghost use Rattle.refusals.specs.Outcomes.{outcome};

use refusals::{Reason, Refusal};

// Whether a year has a 29th of February.
fn is_leap(year: u32) -> bool
    ensures { result ≡ leap year }
{
    if year % 400 == 0 {
        return true;
    }
    if year % 100 == 0 {
        return false;
    }
    year % 4 == 0
}

// How many days a month has.
fn days_in(year: u32, month: u32) -> u32
    ensures { result ≡ days_in year month }
{
    match month {
        2 => {
            if is_leap(year) {
                return 29;
            }
            28
        }
        4 | 6 | 9 | 11 => 30,
        _ => 31,
    }
}

// Whether a date is a day of the years 1970 to 2099.
pub fn is_day(date: u32) -> bool
    ensures { result ≡ is_day date }
{
    let year = date / 10000;
    let month = date / 100 % 100;
    let day = date % 100;
    if year < 1970 {
        return false;
    }
    if 2099 < year {
        return false;
    }
    if month < 1 {
        return false;
    }
    if 12 < month {
        return false;
    }
    if day < 1 {
        return false;
    }
    day <= days_in(year, month)
}

// Ok for a day, 19 for any other number.
#[tactic(auto, unfolding(refusals::specs::Outcomes::outcome_with, crate::specs::Calendar::day_refusal))]
pub fn check_day(date: u32) -> Result<(), Refusal>
    ensures { result ≡ outcome (day_refusal date) }
{
    if is_day(date) {
        return Ok(());
    }
    Err(Refusal::new(Reason::NotADay))
}
