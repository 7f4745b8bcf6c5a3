// The reader of a trading calendar: DDMMYY and CRLF a line, the last may lack it.
#![tactic(auto)]

ghost use Rattle.std.specs.Prelude.{◌≡◌};
ghost use Rattle.contract.specs.Date.{TwoDigitsEach};
ghost use Rattle.calendar.specs.Days.{number_of};
ghost use Rattle.calendar.specs.Text.{line_end, line_at, calendar_of, ReadAs};

use calendar::bounds::MAX_DATES;
use calendar::types::Dates;
use contract::types::Date;

// The end of a line: CRLF, or the end of the bytes.
fn line_end(text: &[u8], at: usize) -> Option<usize>
    ensures { result ≡ line_end text.now at }
{
    if at == text.len() {
        return Some(at);
    }
    let Some(next) = scan::expect(text, at, b'\r') else {
        return None;
    };
    scan::expect(text, next, b'\n')
}

// A line: a date that there is, and the line's end.
fn line(text: &[u8], at: usize) -> Option<(Date, usize)>
    ensures { result ≡ line_at text.now at }
{
    let Some((date, next)) = date::digits(text, at) else {
        return None;
    };
    let Ok(()) = date::verdict(date) else {
        return None;
    };
    let Some(end) = line_end(text, next) else {
        return None;
    };
    Some((date, end))
}

// The number YYMMDD of a date.
fn number_of(date: Date) -> u64
    requires { TwoDigitsEach date }
    ensures { result ≡ number_of date }
{
    date.year * 10000 + date.month * 100 + date.day
}

// Reads a calendar, whatever the bytes are.
pub fn read(text: &[u8]) -> Option<Dates>
    ensures { ReadAs result (calendar_of text.now) }
{
    let mut numbers = [0; MAX_DATES];
    let mut count = 0;
    let mut before = 0;
    let mut at = 0;
    // A while: each step is as long as the line that it reads.
    while at < text.len() {
        if count == MAX_DATES {
            return None;
        }
        let Some((date, next)) = line(text, at) else {
            return None;
        };
        let number = number_of(date);
        if number <= before {
            return None;
        }
        numbers[count] = number;
        count += 1;
        before = number;
        at = next;
    }
    Some(Dates { numbers, count })
}
