// The fields of a row. Each stands behind a comma and is read with it; its reader answers the place after it, or that there is none.
#![tactic(auto)]

ghost use Rattle.std.specs.Prelude.{◌≡◌, drop};
ghost use Rattle.rows.specs.Field.{short_at, number_at, held_in_byte, byte_at, section_at, sections_at, code_on, code_end};

// The most digits of a number, and the least number with more: 10 to the power of them.
const MAX_DIGITS: usize = 18;

const TOO_LARGE: u64 = 1000000000000000000;

// The largest number that a byte holds.
const LARGEST: u64 = 255;

// A number of no more digits than a number has.
fn short(s: &[u8], at: usize) -> Option<(u64, usize)>
    ensures { result ≡ short_at s.now at }
{
    let Some((value, next)) = scan::numeral(s, at, TOO_LARGE) else {
        return None;
    };
    if MAX_DIGITS < next - at {
        return None;
    }
    Some((value, next))
}

pub fn number(s: &[u8], at: usize) -> Option<(u64, usize)>
    ensures { result ≡ number_at s.now at }
{
    if s.len() <= at {
        return None;
    }
    if s[at] != b',' {
        return None;
    }
    short(s, at + 1)
}

fn held_in_byte(v: u64) -> u8
    ensures { result ≡ held_in_byte v }
{
    v.min(LARGEST) as u8
}

pub fn byte(s: &[u8], at: usize) -> Option<(u8, usize)>
    ensures { result ≡ byte_at s.now at }
{
    let Some((value, next)) = number(s, at) else {
        return None;
    };
    Some((held_in_byte(value), next))
}

// The section of a request or a decline: 0 where the row ends here.
pub fn section(s: &[u8], at: usize) -> Option<(u64, usize)>
    ensures { result ≡ section_at s.now at }
{
    if at == s.len() {
        return Some((0, at));
    }
    number(s, at)
}

// The sections of a trade, the buyer's and the seller's: both 0 where the row ends here.
pub fn sections(s: &[u8], at: usize) -> Option<(u64, u64, usize)>
    ensures { result ≡ sections_at s.now at }
{
    if at == s.len() {
        return Some((0, 0, at));
    }
    let Some((buyer, b)) = number(s, at) else {
        return None;
    };
    let Some((seller, c)) = number(s, b) else {
        return None; // one section alone
    };
    Some((buyer, seller, c))
}

// The comma that ends a code, from a place on. No position: a quote before it ends the search with none.
fn code_from(s: &[u8], from: usize) -> Option<usize>
    ensures { result ≡ code_on from (drop from s.now) }
{
    for i in from..s.len() {
        if s[i] == b',' {
            return Some(i);
        }
        if s[i] == b'"' {
            return None;
        }
    }
    None
}

// A code's bytes, up to the comma of the next field.
pub fn code_end(s: &[u8], at: usize) -> Option<usize>
    ensures { result ≡ code_end s.now at }
{
    if s.len() <= at {
        return None;
    }
    if s[at] != b',' {
        return None;
    }
    code_from(s, at + 1)
}
