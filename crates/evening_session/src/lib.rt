// What an evening session does, once it is allowed.
#![tactic(auto)]

ghost use Rattle.std.specs.Prelude.{◌≡◌, ◌≤◌};
ghost use Rattle.terms.specs.Bounds.{final_day};
ghost use Rattle.book.specs.Good.{Good};
ghost use Rattle.book.specs.Step as rule;
ghost use Rattle.book.specs.declared.state.Event as happening;

use amounts::{in_all, less, pay};
use blotter::traded;
use book::state::{Answer, Book, Step};
use session_margin::{coefficients, revalue_series};
use settling::after_evening;
use terms::bounds::{ACCOUNTS, SERIES};

// First exercise, then money, then expiry: each account receives, of all live series, the day's variation margin less what the
// intraday session paid. One series after the other is copied out of the book, settled, revalued and put back.
pub fn carried_out(mut book: Book) -> Step
    requires { (Good book) × (book.day ≤ final_day) }
    ensures { result ≡ rule.carried_out book happening.Event.Evening }
{
    let day = book.day;
    let mut margin = traded(book.blotter, book.trades, coefficients(book));
    // The intraday session has this loop with another step: one loop with the step as a parameter would say more of the step than it saves.
    for i in 0..book.listed {
        let s = book.series[i];
        let next = after_evening(s, day);
        revalue_series(&mut margin, i, s, next, day);
        book.series[i] = next;
    }
    let rest = less(margin, book.intraday_paid);
    let money = in_all(&rest);
    book.cash = pay(book.cash, money);
    book.intraday_paid = [0i64; SERIES * ACCOUNTS];
    book.intraday_done = false;
    book.trades = 0;
    book.day = day + 1;
    Step {
        answer: Answer::Done,
        money,
        book,
    }
}
