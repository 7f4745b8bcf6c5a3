// The F lines of a session. Each function puts its text at a place of the buffer and returns the place after it.
#![tactic(auto)]

ghost use Rattle.std.specs.Prelude.{◌+◌, ◌≤◌, length};
ghost use Rattle.decimal.specs.Put.{Put};
ghost use Rattle.report.specs.Report as rule;

use places::PLACES;
use series::state::Series;
use terms::bounds::{ACCOUNTS, SERIES};

// The futures that arose in series i: those of each account after the session less those before it.
fn series_futures(
    out: &mut [u8],
    at: usize,
    row: u64,
    i: u8,
    before: [i32; PLACES],
    after: [i32; PLACES],
) -> usize
    requires { at + rule.accounts_room ≤ length out.old }
    ensures put { Put out.old at (rule.series_lines row i before after) out.new result }
    ensures upper_bound { result ≤ at + rule.accounts_room }
{
    let mut next = at;
    for a in 0..ACCOUNTS {
        let arisen = account_places::of_account(&after, a) - account_places::of_account(&before, a);
        next = lines::futures(out, next, row, i, a as u8, arisen);
    }
    next
}

// The futures that arose in all series.
pub fn futures(
    out: &mut [u8],
    at: usize,
    row: u64,
    before: [Series; SERIES],
    after: [Series; SERIES],
) -> usize
    requires { at + rule.futures_room ≤ length out.old }
    ensures put { Put out.old at (rule.futures_lines row before after) out.new result }
    ensures upper_bound { result ≤ at + rule.futures_room }
{
    let mut next = at;
    for i in 0..SERIES {
        next = series_futures(out, next, row, i as u8, before[i].futures, after[i].futures);
    }
    next
}
