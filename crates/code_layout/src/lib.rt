// The whole layout: futures code, M, date, type, category, style, strike.
#![tactic(auto)]

ghost use Rattle.std.specs.Prelude.{◌≡◌, ◌∷◌, ◌++◌, ◌+◌, ◌≤◌, length};
ghost use Rattle.decimal.specs.Put.{Put};
ghost use Rattle.contract.specs.Bounds.{date_length};
ghost use Rattle.contract.specs.Code.{code_text, layout_at};
ghost use Rattle.contract.specs.Date.{TwoDigitsEach, date_text};

use contract::types::{Code, Date, Terms};

// The fields of a code, whatever date and strike they say.
pub fn fields(s: &[u8]) -> Option<Code>
    ensures { result ≡ layout_at s.now }
{
    let Some(future) = code_fields::future::leading(s) else {
        return None;
    };
    let Some(a) = scan::expect(s, future, b'M') else {
        return None;
    };
    let Some((date, b)) = date::digits(s, a) else {
        return None;
    };
    let Some((option, category, c)) = code_fields::kind::letters(s, b) else {
        return None;
    };
    let Some((style, d)) = style::blank(s, c) else {
        return None;
    };
    let Some(strike) = strike::last(s, d) else {
        return None;
    };
    Some(Code {
        future,
        terms: Terms {
            date,
            option,
            category,
            style,
            strike,
        },
    })
}

// The futures code, M and the date, at the start of a buffer.
fn put_head(out: &mut [u8], future: &[u8], date: Date) -> usize
    requires { (length future.now + (1 + date_length) ≤ length out.old) × TwoDigitsEach date }
    ensures { Put out.old 0 (future.now ++ (77 ∷ date_text date)) out.new result }
{
    let a = put::bytes(out, 0, future);
    let b = put::byte(out, a, b'M');
    date::put_digits(out, b, date)
}

// A code at the start of a buffer. Returns its length.
pub fn put_code(out: &mut [u8], future: &[u8], terms: Terms) -> usize
    requires { (length (code_text future.now terms) ≤ length out.old) × TwoDigitsEach terms.date }
    ensures { Put out.old 0 (code_text future.now terms) out.new result }
{
    let b = put_head(out, future, terms.date);
    let c = code_fields::kind::put_letters(out, b, terms.option, terms.category);
    let d = style::put_blank(out, c, terms.style);
    strike::put_text(out, d, terms.strike)
}
