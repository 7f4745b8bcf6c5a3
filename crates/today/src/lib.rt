// What an event asks of the book as a whole.
#![tactic(auto)]

ghost use Rattle.std.specs.Prelude.{◌≡◌};
ghost use Rattle.book.specs.State as rule;

use book::state::{Book, Today};

// The day, how many series are listed and trades made, and whether the intraday session is over.
pub fn today_of(book: &Book) -> Today
    ensures { result ≡ rule.today_of book.now }
{
    Today {
        day: book.day,
        listed: book.listed,
        trades: book.trades,
        intraday_done: book.intraday_done,
    }
}
