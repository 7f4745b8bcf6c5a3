// The row of a listing: L,code,R,last day, or L,code,R.
#![tactic(auto)]

ghost use Rattle.std.specs.Prelude.{◌≡◌};
ghost use Rattle.calendar.specs.Days.{dates_of};
ghost use Rattle.rows.specs.Row.{list_event, listing, dated_listing, list_row};

use book::state::Event;
use contract::types::Terms;
use rows::types::{Refusal, Row};
use series::event::NewSeries;

// The event of a listing by the terms of its code.
fn list_event(terms: Terms, tick: u64, last_day: u64) -> Event
    ensures { result ≡ list_event terms tick last_day }
{
    Event::List(NewSeries {
        option: terms.option,
        category: terms.category,
        strike: terms.strike,
        tick,
        last_day,
    })
}

// A listing whose row gives its last day.
fn listing(code: &[u8], tick: u64, last: u64) -> Row
    ensures { result ≡ listing code.now tick last }
{
    let said = code::read(code).map_err(Refusal::Code)?;
    Ok(list_event(said.terms, tick, last))
}

// A listing whose last day is the day of its code's date.
fn dated_listing(calendar: &[u64], code: &[u8], tick: u64) -> Row
    ensures { result ≡ dated_listing (dates_of calendar.now) code.now tick }
{
    let dated = code::read(code).map_err(Refusal::Code)?;
    let last = calendar_day::day_of(calendar, dated.terms.date).ok_or(Refusal::NoTradingDate)?;
    Ok(list_event(dated.terms, tick, last))
}

// L,code,R,last day, or L,code,R. The code is judged once the row is whole.
pub fn list(calendar: &[u64], s: &[u8]) -> Row
    ensures { result ≡ list_row (dates_of calendar.now) s.now }
{
    let Some(a) = row_fields::code_end(s, 1) else {
        return Err(Refusal::Row);
    };
    let Some((tick, b)) = row_fields::number(s, a) else {
        return Err(Refusal::Row);
    };
    if b == s.len() {
        return dated_listing(calendar, &s[2..a], tick);
    }
    let Some((last, c)) = row_fields::number(s, b) else {
        return Err(Refusal::Row);
    };
    if c != s.len() {
        return Err(Refusal::Row);
    }
    listing(&s[2..a], tick, last)
}
