// Digits, numbers and single bytes in a slice of bytes.
#![tactic(auto)]

ghost use Rattle.std.specs.Prelude.{◌≡◌, ◌+◌, ◌*◌, min, get_or};
ghost use Rattle.decimal.specs.Read.{as_digit, numeral_at, two_digits_at, capped};
ghost use Rattle.decimal.specs.Scan.{byte_at};

// The digit that a byte stands for.
pub fn digit(b: u8) -> Option<u64>
    ensures { result ≡ as_digit b }
{
    match b {
        b'0'..=b'9' => Some((b - b'0') as u64),
        _ => None,
    }
}

// The digit at a place.
pub fn digit_at(s: &[u8], at: usize) -> Option<u64>
    ensures { result ≡ as_digit (get_or s.now at 0) }
{
    if at < s.len() { digit(s[at]) } else { None }
}

// A number with one digit more, or `most` where that is above it.
fn grown(v: u64, d: u64, most: u64) -> u64
    ensures { result ≡ min (v * 10 + d) most }
{
    if d <= most {
        if v <= (most - d) / 10 {
            return v * 10 + d;
        }
    }
    most
}

// The number without leading zeros at a place, however long; above `most` it stands as `most`.
pub fn numeral(s: &[u8], at: usize, most: u64) -> Option<(u64, usize)>
    ensures { result ≡ capped most (numeral_at s.now at) }
{
    let first = digit_at(s, at)?;
    if first == 0 {
        return Some((0, at + 1));
    }
    let mut v = grown(0, first, most);
    for i in at + 1..s.len() {
        let Some(d) = digit(s[i]) else {
            return Some((v, i));
        };
        v = grown(v, d, most);
    }
    Some((v, s.len()))
}

// The number of two digits at a place.
pub fn two_digits(s: &[u8], at: usize) -> Option<(u64, usize)>
    ensures { result ≡ two_digits_at s.now at }
{
    let tens = digit_at(s, at)?;
    let ones = digit_at(s, at + 1)?;
    Some((tens * 10 + ones, at + 2))
}

// A byte that must stand at a place.
pub fn expect(s: &[u8], at: usize, b: u8) -> Option<usize>
    ensures { result ≡ byte_at s.now at b }
{
    if at < s.len() {
        if s[at] == b {
            return Some(at + 1);
        }
    }
    None
}
