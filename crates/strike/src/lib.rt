// The strike: units without leading zeros, and a point with one or two digits where the last is not 0.
#![tactic(auto)]

ghost use Rattle.std.specs.Prelude.{◌≡◌, ◌+◌, ◌*◌, ◌≤◌, ◌<◌, length};
ghost use Rattle.decimal.specs.Put.{Put};
ghost use Rattle.contract.specs.Strike.{hundredths_text, strike_text, fraction_at, hundredths_at, strike_at, strike_verdict};

use contract::bounds::TOO_MANY_UNITS;
use contract::types::{Refusal, Verdict};
use terms::bounds::MAX_STRIKE;

// The one or two digits after the point, which end the code.
fn fraction(s: &[u8], at: usize) -> Option<u64>
    ensures { result ≡ fraction_at s.now at }
{
    let Some(tens) = scan::digit_at(s, at) else {
        return None;
    };
    let i = at + 1;
    if i == s.len() {
        if tens == 0 {
            return None;
        }
        return Some(tens * 10);
    }
    let Some(ones) = scan::digit_at(s, i) else {
        return None;
    };
    if ones == 0 {
        return None;
    }
    if i + 1 == s.len() {
        return Some(tens * 10 + ones);
    }
    None
}

// What follows the units, up to the end of the code.
fn hundredths(s: &[u8], at: usize) -> Option<u64>
    ensures { result ≡ hundredths_at s.now at }
{
    if at == s.len() {
        return Some(0);
    }
    let Some(i) = scan::expect(s, at, b'.') else {
        return None;
    };
    fraction(s, i)
}

// The strike in hundredths, up to the end of the code. More units than a strike has count as the least such: every such
// strike is refused.
pub fn last(s: &[u8], at: usize) -> Option<u64>
    ensures { result ≡ strike_at s.now at }
{
    let Some((units, next)) = scan::numeral(s, at, TOO_MANY_UNITS) else {
        return None;
    };
    let Some(part) = hundredths(s, next) else {
        return None;
    };
    Some(units * 100 + part)
}

pub fn verdict(strike: u64) -> Verdict
    ensures { result ≡ strike_verdict strike }
{
    match strike {
        1..=MAX_STRIKE => Ok(()),
        _ => Err(Refusal::StrikeText),
    }
}

fn put_hundredths(out: &mut [u8], at: usize, part: u64) -> usize
    requires { (at + length (hundredths_text part) ≤ length out.old) × (part < 100) }
    ensures { Put out.old at (hundredths_text part) out.new result }
{
    if part == 0 {
        return at;
    }
    let i = put::byte(out, at, b'.');
    let j = put::byte(out, i, 48 + (part / 10) as u8);
    if part % 10 == 0 {
        return j;
    }
    put::byte(out, j, 48 + (part % 10) as u8)
}

pub fn put_text(out: &mut [u8], at: usize, strike: u64) -> usize
    requires { at + length (strike_text strike) ≤ length out.old }
    ensures { Put out.old at (strike_text strike) out.new result }
{
    let next = put::digits(out, at, strike / 100);
    put_hundredths(out, next, strike % 100)
}
