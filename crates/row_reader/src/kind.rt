// The row of each kind of event: its fields in order, and then the end of the row.
ghost use Rattle.std.specs.Prelude.{◌≡◌};
ghost use Rattle.rows.specs.Row.{at_end, trade_row, exercise_row, decline_row, mark_row, intraday_row, evening_row};

use book::state::Event;
use rows::types::{Refusal, Row};
use series::event::{Deal, Quote, Request, Waiver};

// An event whose row has to end at a place.
fn at_end(s: &[u8], at: usize, event: Event) -> Row
    ensures { result ≡ at_end s.now at event }
{
    if at == s.len() {
        return Ok(event);
    }
    Err(Refusal::Row)
}

// T,series,buyer,seller,quantity,price, and both sections or neither
pub fn trade(s: &[u8]) -> Row
    ensures { result ≡ trade_row s.now }
{
    let Some((series, a)) = row_fields::byte(s, 1) else {
        return Err(Refusal::Row);
    };
    let Some((buyer, b)) = row_fields::byte(s, a) else {
        return Err(Refusal::Row);
    };
    let Some((seller, c)) = row_fields::byte(s, b) else {
        return Err(Refusal::Row);
    };
    let Some((quantity, d)) = row_fields::number(s, c) else {
        return Err(Refusal::Row);
    };
    let Some((price, e)) = row_fields::number(s, d) else {
        return Err(Refusal::Row);
    };
    let Some((buyer_section, seller_section, f)) = row_fields::sections(s, e) else {
        return Err(Refusal::Row);
    };
    at_end(
        s,
        f,
        Event::Trade(Deal {
            series,
            buyer,
            seller,
            quantity,
            price,
            buyer_section,
            seller_section,
        }),
    )
}

// X,series,account,quantity, and a section or none
pub fn exercise(s: &[u8]) -> Row
    ensures { result ≡ exercise_row s.now }
{
    let Some((series, a)) = row_fields::byte(s, 1) else {
        return Err(Refusal::Row);
    };
    let Some((account, b)) = row_fields::byte(s, a) else {
        return Err(Refusal::Row);
    };
    let Some((quantity, c)) = row_fields::number(s, b) else {
        return Err(Refusal::Row);
    };
    let Some((section, d)) = row_fields::section(s, c) else {
        return Err(Refusal::Row);
    };
    at_end(
        s,
        d,
        Event::Exercise(Request {
            series,
            account,
            quantity,
            section,
        }),
    )
}

// D,series,account, and a section or none
pub fn decline(s: &[u8]) -> Row
    ensures { result ≡ decline_row s.now }
{
    let Some((series, a)) = row_fields::byte(s, 1) else {
        return Err(Refusal::Row);
    };
    let Some((account, b)) = row_fields::byte(s, a) else {
        return Err(Refusal::Row);
    };
    let Some((section, c)) = row_fields::section(s, b) else {
        return Err(Refusal::Row);
    };
    at_end(
        s,
        c,
        Event::Decline(Waiver {
            series,
            account,
            section,
        }),
    )
}

// M,series,option,futures,W
pub fn mark(s: &[u8]) -> Row
    ensures { result ≡ mark_row s.now }
{
    let Some((series, a)) = row_fields::byte(s, 1) else {
        return Err(Refusal::Row);
    };
    let Some((option, b)) = row_fields::number(s, a) else {
        return Err(Refusal::Row);
    };
    let Some((future, c)) = row_fields::number(s, b) else {
        return Err(Refusal::Row);
    };
    let Some((tick_value, d)) = row_fields::number(s, c) else {
        return Err(Refusal::Row);
    };
    at_end(
        s,
        d,
        Event::Mark(Quote {
            series,
            option,
            future,
            tick_value,
        }),
    )
}

// I
pub fn intraday(s: &[u8]) -> Row
    ensures { result ≡ intraday_row s.now }
{
    at_end(s, 1, Event::Intraday)
}

// V
pub fn evening(s: &[u8]) -> Row
    ensures { result ≡ evening_row s.now }
{
    at_end(s, 1, Event::Evening)
}
