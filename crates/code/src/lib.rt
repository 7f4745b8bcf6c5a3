// Contract codes, as GAZR-3.23M150323CA17000 and GAZR-3.23M150323CA 17000: the reader, the writer, and the futures code that a
// code begins with.
#![tactic(auto)]

ghost use Rattle.std.specs.Prelude.{◌≡◌};
ghost use Rattle.contract.specs.Code.{verdict_of, read_code, future_of, terms_verdict, write_verdict, written};

use contract::bounds::MAX_CODE;
use contract::types::{Code, Refusal, Terms, Verdict, Written};
use decimal::PAIRS;

// Whether the date is in the calendar, and then whether the strike is within its bounds.
fn verdict(terms: Terms) -> Verdict
    ensures { result ≡ verdict_of terms }
{
    date::verdict(terms.date)?;
    strike::verdict(terms.strike)
}

// The terms of a code.
pub fn read(code: &[u8]) -> Result<Code, Refusal>
    ensures { result ≡ read_code code.now }
{
    let Some(said) = code_layout::fields(code) else {
        return Err(Refusal::Layout);
    };
    verdict(said.terms)?;
    Ok(said)
}

// The futures code that a code begins with, empty where the code is refused.
pub fn future_of(code: &[u8]) -> &[u8]
    ensures { result.now ≡ future_of code.now }
{
    let Ok(said) = read(code) else {
        return &code[..0];
    };
    &code[..said.future]
}

// The verdict on terms of any numbers: a date that does not go into two digits each has no layout.
fn terms_verdict(terms: Terms) -> Verdict
    ensures { result ≡ terms_verdict terms }
{
    let date = terms.date;
    if PAIRS <= date.day {
        return Err(Refusal::Layout);
    }
    if PAIRS <= date.month {
        return Err(Refusal::Layout);
    }
    if PAIRS <= date.year {
        return Err(Refusal::Layout);
    }
    verdict(terms)
}

// Whether the bytes are a futures code, and nothing else, and then the verdict on the other terms.
fn write_verdict(future: &[u8], terms: Terms) -> Verdict
    ensures { result ≡ write_verdict future.now terms }
{
    let Some(n) = code_fields::future::leading(future) else {
        return Err(Refusal::Layout);
    };
    if n != future.len() {
        return Err(Refusal::Layout);
    }
    terms_verdict(terms)
}

// The code of a futures code and the other terms, or why there is none.
pub fn write(future: &[u8], terms: Terms) -> Result<Written, Refusal>
    ensures { result ≡ written future.now terms }
{
    write_verdict(future, terms)?;
    let mut bytes = [0; MAX_CODE];
    let len = code_layout::put_code(&mut bytes, future, terms);
    Ok(Written { bytes, len })
}
