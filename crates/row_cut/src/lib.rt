// Rows in a buffer that is refilled: where the next one ends, what is kept of an unfinished one, and moving that to the front.
#![tactic(auto)]

ghost use Rattle.std.specs.Prelude.{◌≡◌, ◌<◌, length, drop};
ghost use Rattle.rows.specs.Cut.{starts_crlf, end_from, kept_from, moved_down};

// How many bytes of an unfinished row are kept: with them a row that is too long stays so, whether or not the last is the CR of its
// CRLF.
const KEPT: usize = 258;

// Whether CR LF stand at a place.
fn crlf(s: &[u8], i: usize) -> bool
    requires { i < length s.now }
    ensures { result ≡ starts_crlf (drop i s.now) }
{
    if s[i] == b'\r' {
        if i + 1 < s.len() {
            return s[i + 1] == b'\n';
        }
    }
    false
}

// The first CRLF from a place on. No position of a slice from there: the place may lie past the end.
pub fn row_end(s: &[u8], from: usize) -> Option<usize>
    ensures { result ≡ end_from s.now from }
{
    for i in from..s.len() {
        let ends = crlf(s, i);
        if ends {
            return Some(i);
        }
    }
    None
}

// Of an unfinished row that starts at a place and goes to the end of the input so far: where what is kept of it starts.
pub fn kept_from(from: usize, end: usize) -> usize
    ensures { result ≡ kept_from from end }
{
    if end < KEPT {
        return from;
    }
    let last = end - KEPT;
    if last < from { from } else { last }
}

// Moves the bytes from a place on to the front, and returns how many they are.
pub fn move_down(buf: &mut [u8], from: usize) -> usize
    ensures { (result ≡ length (drop from buf.old)) × (buf.new ≡ moved_down from buf.old) }
{
    let count = buf.len().saturating_sub(from);
    if from < buf.len() {
        buf.copy_within(from.., 0);
    }
    count
}
