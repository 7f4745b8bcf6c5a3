// The lines of a row that is an event. Each function puts its text at a place of the buffer and returns the place after it.
#![tactic(auto)]

ghost use Rattle.std.specs.Prelude.{◌+◌, ◌≤◌, length};
ghost use Rattle.decimal.specs.Put.{Put};
ghost use Rattle.report.specs.Lines as text;
ghost use Rattle.report.specs.Report as rule;

use book::state::{Answer, Step};
use series::state::Series;
use terms::bounds::{ACCOUNTS, SERIES};

// The line of an answer.
pub fn answered(out: &mut [u8], at: usize, row: u64, answer: Answer) -> usize
    requires { at + text.line_room ≤ length out.old }
    ensures put { Put out.old at (rule.answer_of row answer) out.new result }
    ensures upper_bound { result ≤ at + text.line_room }
{
    let found = answers::named(answer);
    let told = answers::period(answer);
    let number = answers::answer_number(answer);
    lines::answer(out, at, row, found, told, number)
}

// The money of all accounts.
pub fn money(out: &mut [u8], at: usize, row: u64, money: [i64; ACCOUNTS]) -> usize
    requires { at + rule.accounts_room ≤ length out.old }
    ensures put { Put out.old at (rule.money_lines row money) out.new result }
    ensures upper_bound { result ≤ at + rule.accounts_room }
{
    let mut next = at;
    for a in 0..ACCOUNTS {
        next = lines::money(out, next, row, a as u8, money[a]);
    }
    next
}

// All lines of a row: its answer, the money of all accounts, and the futures that arose. `before` is the series before its step.
pub fn report(out: &mut [u8], at: usize, row: u64, before: [Series; SERIES], step: Step) -> usize
    requires { at + rule.row_room ≤ length out.old }
    ensures put { Put out.old at (rule.report_of row before step) out.new result }
    ensures upper_bound { result ≤ at + rule.row_room }
{
    let first = answered(out, at, row, step.answer);
    let next = money(out, first, row, step.money);
    futures_lines::futures(out, next, row, before, step.book.series)
}
