ghost use Rattle.std.specs.Prelude.{◌≡◌};
ghost use Rattle.book.specs.Good.{Good};
ghost use Rattle.book.specs.Step as rule;
ghost use Rattle.book.specs.declared.state.Event as happening;

use crate::change;
use crate::verdict::list_verdict;
use book::state::{Answer, Book, Event, Step};
use refusing::refused;
use series::event::NewSeries;
use series::state::Listing;
use terms::bounds::ACCOUNTS;
use today::today_of;

// A listing takes the next series number.
pub fn list(mut book: Book, new: NewSeries) -> Step
    requires { Good book }
    ensures { result ≡ rule.step_of book (happening.Event.List new) }
{
    let n = book.listed;
    let today = today_of(&book);
    if let Err(why) = list_verdict(today, new) {
        return refused(book, why);
    }
    let listing = Listing {
        option: new.option,
        category: new.category,
        strike: new.strike as u32,
        tick: new.tick as u32,
        last_day: new.last_day as u32,
    };
    let s = change::new_series(listing);
    book.series[n] = s;
    book.listed = n + 1;
    Step {
        answer: Answer::Listed(n as u8),
        money: [0i64; ACCOUNTS],
        book,
    }
}
