// The two sessions: what they ask, in the order of the refusals.
#![tactic(auto)]

ghost use Rattle.std.specs.Prelude.{◌≡◌};
ghost use Rattle.series.specs.declared.refusal.Refusal.TheVariants.{Finished};
ghost use Rattle.book.specs.Good.{Good};
ghost use Rattle.book.specs.Step as rule;
ghost use Rattle.book.specs.declared.state.Event as happening;

use book::state::{Book, Step};
use missing_mark::first_unmarked;
use refusing::refused;
use series::refusal::Refusal;
use terms::bounds::FINAL_DAY;

// The intraday session: carried out, or refused.
pub fn intraday(book: Book) -> Step
    requires { Good book }
    ensures { result ≡ rule.step_of book happening.Event.Intraday }
{
    if FINAL_DAY < book.day {
        return refused(book, Refusal::Finished);
    }
    if book.intraday_done {
        return refused(book, Refusal::SecondIntraday);
    }
    if let Some(i) = first_unmarked(book) {
        return refused(book, Refusal::NoMark(i));
    }
    intraday_session::carried_out(book)
}

// The evening session: carried out, or refused.
pub fn evening(book: Book) -> Step
    requires { Good book }
    ensures { result ≡ rule.step_of book happening.Event.Evening }
{
    if FINAL_DAY < book.day {
        return refused(book, Refusal::Finished);
    }
    if let Some(series) = first_unmarked(book) {
        return refused(book, Refusal::NoMark(series));
    }
    evening_session::carried_out(book)
}
