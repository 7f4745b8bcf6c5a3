ghost use Rattle.std.specs.Prelude.{◌≡◌, ◌≤◌};
ghost use Rattle.terms.specs.Bounds.{series_room};
ghost use Rattle.book.specs.Effects.{series_of};
ghost use Rattle.book.specs.Good.{Good};
ghost use Rattle.book.specs.Step as rule;

use book::state::{Book, Event, Step};
use listing::event::list;
use refusing::no_such_series;
use sessions::{evening, intraday};

// An event on the whole book, or on a series whose number is past every series.
pub fn whole(book: Book, event: Event) -> Step
    requires { (Good book) × (series_room ≤ series_of event) }
    ensures { result ≡ rule.step_of book event }
{
    match event {
        Event::List(new) => return list(book, new),
        Event::Intraday => return intraday(book),
        Event::Evening => return evening(book),
        _ => {}
    }
    no_such_series(book)
}
