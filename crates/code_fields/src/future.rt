// The futures code: capitals, a hyphen, the month, a point, two digits of the year.
ghost use Rattle.std.specs.Prelude.{◌≡◌};
ghost use Rattle.contract.specs.Future.{capital_of, name_end, name_at, month_at, year_at, future_at};

use contract::bounds::{MAX_NAME, MONTHS};

// The least number after the months.
const PAST_MONTHS: u64 = MONTHS + 1;

fn capital(b: u8) -> bool
    ensures { result ≡ capital_of b }
{
    matches!(b, b'A'..=b'Z')
}

fn name_end(i: usize) -> Option<usize>
    ensures { result ≡ name_end i }
{
    if i == 0 { None } else { Some(i) }
}

fn name(s: &[u8]) -> Option<usize>
    ensures { result ≡ name_at s.now }
{
    for i in 0..s.len() {
        let letter = capital(s[i]);
        if !letter {
            return name_end(i);
        }
        if MAX_NAME <= i {
            return None;
        }
    }
    name_end(s.len())
}

fn month(s: &[u8], at: usize) -> Option<usize>
    ensures { result ≡ month_at s.now at }
{
    let Some((value, next)) = scan::numeral(s, at, PAST_MONTHS) else {
        return None;
    };
    match value {
        1..=MONTHS => Some(next),
        _ => None,
    }
}

fn year(s: &[u8], at: usize) -> Option<usize>
    ensures { result ≡ year_at s.now at }
{
    let Some((_, next)) = scan::two_digits(s, at) else {
        return None;
    };
    Some(next)
}

// The futures code that the bytes begin with.
pub fn leading(s: &[u8]) -> Option<usize>
    ensures { result ≡ future_at s.now }
{
    let Some(a) = name(s) else {
        return None;
    };
    let Some(b) = scan::expect(s, a, b'-') else {
        return None;
    };
    let Some(c) = month(s, b) else {
        return None;
    };
    let Some(d) = scan::expect(s, c, b'.') else {
        return None;
    };
    year(s, d)
}
