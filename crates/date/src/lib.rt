// The last trading day, DDMMYY.
#![tactic(auto)]

ghost use Rattle.std.specs.Prelude.{◌≡◌, ◌+◌, ◌≤◌, length};
ghost use Rattle.decimal.specs.Put.{Put};
ghost use Rattle.contract.specs.Bounds.{date_length};
ghost use Rattle.contract.specs.Date.{leap_year, days_in, is_date, date_verdict, TwoDigitsEach, date_text, date_at};

use contract::bounds::MONTHS;
use contract::types::{Date, Refusal, Verdict};

// Any two digits each: whether there is such a date is asked once the layout of the whole code is known.
pub fn digits(s: &[u8], at: usize) -> Option<(Date, usize)>
    ensures { result ≡ date_at s.now at }
{
    let Some((day, b)) = scan::two_digits(s, at) else {
        return None;
    };
    let Some((month, c)) = scan::two_digits(s, b) else {
        return None;
    };
    let Some((year, next)) = scan::two_digits(s, c) else {
        return None;
    };
    Some((Date { day, month, year }, next))
}

// Whether 2000 and so many years is a leap year; 2000 itself is a multiple of 400.
fn leap(year: u64) -> bool
    ensures { result ≡ leap_year (2000 + year) }
{
    if year % 400 == 0 {
        return true;
    }
    if year % 100 == 0 {
        return false;
    }
    year % 4 == 0
}

// How many days a month has, 0 for what is no month.
fn month_days(year: u64, month: u64) -> u64
    ensures { result ≡ days_in (2000 + year) month }
{
    if month == 2 {
        let long = leap(year);
        if long {
            return 29;
        }
        return 28;
    }
    match month {
        1..=7 => 30 + month % 2,
        8..=MONTHS => 31 - month % 2,
        _ => 0,
    }
}

fn in_calendar(date: Date) -> bool
    ensures { result ≡ is_date date }
{
    if date.day == 0 {
        return false;
    }
    date.day <= month_days(date.year, date.month)
}

pub fn verdict(date: Date) -> Verdict
    ensures { result ≡ date_verdict date }
{
    let dated = in_calendar(date);
    if dated {
        return Ok(());
    }
    Err(Refusal::NoDate)
}

pub fn put_digits(out: &mut [u8], at: usize, date: Date) -> usize
    requires { (at + date_length ≤ length out.old) × TwoDigitsEach date }
    ensures { Put out.old at (date_text date) out.new result }
{
    let b = put::two_digits(out, at, date.day);
    let c = put::two_digits(out, b, date.month);
    put::two_digits(out, c, date.year)
}
