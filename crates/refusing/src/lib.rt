// What a refused event gives.
#![tactic(auto)]

ghost use Rattle.std.specs.Prelude.{◌≡◌};
ghost use Rattle.choice.specs.Choice.{choose};
ghost use Rattle.series.specs.declared.refusal.Refusal.TheVariants.{Finished, UnknownSeries};
ghost use Rattle.book.specs.State.{today_of};
ghost use Rattle.book.specs.Step as rule;
ghost use Rattle.book.specs.Verdicts.{finished};

use book::state::{Answer, Book, Step};
use series::refusal::Refusal;
use terms::bounds::{ACCOUNTS, FINAL_DAY};

// A refused event leaves the book as it stood and pays nobody.
pub fn refused(book: Book, why: Refusal) -> Step
    ensures { result ≡ rule.refused book why }
{
    Step {
        answer: Answer::Refused(why),
        money: [0i64; ACCOUNTS],
        book,
    }
}

// An event on a series whose number is past every series.
pub fn no_such_series(book: Book) -> Step
    ensures { result ≡ rule.refused book (choose (finished (today_of book)) Finished UnknownSeries) }
{
    if FINAL_DAY < book.day {
        return refused(book, Refusal::Finished);
    }
    refused(book, Refusal::UnknownSeries)
}
