// One line of the output. Each function puts its text at a place of the buffer and returns the place after it.
#![tactic(auto)]

ghost use Rattle.std.specs.Prelude.{◌+◌, ◌≤◌, length};
ghost use Rattle.decimal.specs.Put.{Put};
ghost use Rattle.report.specs.Lines as text;
ghost use Rattle.report.specs.Report as rule;

use terms::refusals::CALENDAR;

// The line that the output begins with.
pub fn header(out: &mut [u8], at: usize) -> usize
    requires { at + text.line_room ≤ length out.old }
    ensures put { Put out.old at text.header out.new result }
    ensures upper_bound { result ≤ at + text.line_room }
{
    put::bytes(out, at, b"row,kind,series,account,amount\r\n")
}

// The number of an answer, with the series that it names and the period that it tells.
pub fn answer(
    out: &mut [u8],
    at: usize,
    row: u64,
    found: Option<u8>,
    told: Option<u8>,
    number: u64,
) -> usize
    requires { at + text.line_room ≤ length out.old }
    ensures put { Put out.old at (rule.answer_line row found told number) out.new result }
    ensures upper_bound { result ≤ at + text.line_room }
{
    let series = line_fields::begin(out, at, row, b'A');
    let commas = line_fields::series(out, series, found);
    let digits = line_fields::period(out, commas, told);
    let next = line_fields::number(out, digits, number);
    line_fields::end(out, next)
}

// What stands in place of all rows where the calendar is refused: the header, and the line of row 0.
pub fn no_calendar(out: &mut [u8]) -> usize
    requires { text.line_room + text.line_room ≤ length out.old }
    ensures put { Put out.old 0 rule.no_calendar out.new result }
    ensures upper_bound { result ≤ text.line_room + text.line_room }
{
    let next = header(out, 0);
    answer(out, next, 0, None, None, CALENDAR)
}

// The money of an account, where it is not 0.
pub fn money(out: &mut [u8], at: usize, row: u64, a: u8, amount: i64) -> usize
    requires { at + text.line_room ≤ length out.old }
    ensures put { Put out.old at (rule.money_line row a amount) out.new result }
    ensures upper_bound { result ≤ at + text.line_room }
{
    if amount == 0 {
        return at;
    }
    let comma = line_fields::begin(out, at, row, b'M');
    let roubles = line_fields::account(out, comma, a);
    let next = line_fields::amount(out, roubles, amount);
    line_fields::end(out, next)
}

// The futures that arose for an account in series i, where there are any.
pub fn futures(out: &mut [u8], at: usize, row: u64, i: u8, a: u8, arisen: i64) -> usize
    requires { at + text.line_room ≤ length out.old }
    ensures put { Put out.old at (rule.futures_line row i a arisen) out.new result }
    ensures upper_bound { result ≤ at + text.line_room }
{
    if arisen == 0 {
        return at;
    }
    let series = line_fields::begin(out, at, row, b'F');
    let comma = line_fields::index(out, series, i);
    let count = line_fields::account(out, comma, a);
    let next = line_fields::count(out, count, arisen);
    line_fields::end(out, next)
}
