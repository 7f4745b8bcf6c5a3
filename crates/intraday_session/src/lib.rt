// What an intraday session does, once it is allowed.
#![tactic(auto)]

ghost use Rattle.std.specs.Prelude.{◌≡◌};
ghost use Rattle.book.specs.Good.{Good};
ghost use Rattle.book.specs.Step as rule;
ghost use Rattle.book.specs.declared.state.Event as happening;

use amounts::{in_all, pay};
use blotter::traded;
use book::state::{Answer, Book, Step};
use session_margin::{coefficients, revalue_series};
use settling::after_intraday;

// Each account receives the variation margin so far of all live series, and the marks are dropped. One series after the other is copied
// out of the book, revalued and put back.
pub fn carried_out(mut book: Book) -> Step
    requires { Good book }
    ensures { result ≡ rule.carried_out book happening.Event.Intraday }
{
    let day = book.day;
    let mut margin = traded(book.blotter, book.trades, coefficients(book));
    for i in 0..book.listed {
        let s = book.series[i];
        let next = after_intraday(s, day);
        revalue_series(&mut margin, i, s, next, day);
        book.series[i] = next;
    }
    let money = in_all(&margin);
    book.cash = pay(book.cash, money);
    book.intraday_paid = margin;
    book.intraday_done = true;
    Step {
        answer: Answer::Done,
        money,
        book,
    }
}
