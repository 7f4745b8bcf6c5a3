// The event that a row says.
#![tactic(auto)]

mod kind; // kind.rt: each kind of row

ghost use Rattle.std.specs.Prelude.{◌≡◌};
ghost use Rattle.calendar.specs.Days.{dates_of};
ghost use Rattle.rows.specs.Row.{row_of};

use rows::types::{Refusal, Row};

// The most bytes of a row without its CRLF.
const MAX_ROW: usize = 256;

// The event that a row says, whatever its bytes and whatever the trading calendar, or why it says none.
pub fn read_row(calendar: &[u64], s: &[u8]) -> Row
    ensures { result ≡ row_of (dates_of calendar.now) s.now }
{
    if MAX_ROW < s.len() {
        return Err(Refusal::Row);
    }
    if s.len() == 0 {
        return Err(Refusal::Row);
    }
    // By letter, as the rules list the rows.
    let letter = s[0];
    match letter {
        b'L' => list_row::list(calendar, s),
        b'T' => kind::trade(s),
        b'X' => kind::exercise(s),
        b'D' => kind::decline(s),
        b'M' => kind::mark(s),
        b'I' => kind::intraday(s),
        b'V' => kind::evening(s),
        _ => Err(Refusal::Row),
    }
}
