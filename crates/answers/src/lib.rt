// What an answer's line tells: the number of the answer or of the row's refusal, the series that it names and the period.
#![tactic(auto)]

pub mod number; // number.rt: rows that are refused before they reach the book

ghost use Rattle.std.specs.Prelude.{◌≡◌};
ghost use Rattle.series.specs.Refusals.{number};
ghost use Rattle.book.specs.Answers as rule;
ghost use Rattle.report.specs.Report.{is_session};

use book::state::{Answer, Event};
use series::refusal::Refusal;
use terms::refusals;

// The number of a refusal. No conversion by From: the refusals stand in a crate of rules, which has no impl.
fn refusal_number(why: Refusal) -> u64
    ensures { result ≡ number why }
{
    match why {
        Refusal::Finished => refusals::FINISHED,
        Refusal::UnknownSeries => refusals::UNKNOWN_SERIES,
        Refusal::Expired => refusals::EXPIRED,
        Refusal::UnknownAccount => refusals::UNKNOWN_ACCOUNT,
        Refusal::UnknownSection => refusals::UNKNOWN_SECTION,
        Refusal::OwnTrade => refusals::OWN_TRADE,
        Refusal::Size => refusals::SIZE,
        Refusal::Price => refusals::PRICE,
        Refusal::PositionLimit => refusals::POSITION_LIMIT,
        Refusal::BlotterFull => refusals::BLOTTER_FULL,
        Refusal::Terms => refusals::TERMS,
        Refusal::SeriesFull => refusals::SERIES_FULL,
        Refusal::NotToday => refusals::NOT_TODAY,
        Refusal::NotHeld => refusals::NOT_HELD,
        Refusal::TickValue => refusals::TICK_VALUE,
        Refusal::SecondIntraday => refusals::SECOND_INTRADAY,
        Refusal::NoMark(_) => refusals::NO_MARK,
    }
}

// The number of an answer: of its refusal, or 0.
pub fn answer_number(answer: Answer) -> u64
    ensures { result ≡ rule.answer_number answer }
{
    match answer {
        Answer::Done => 0,
        Answer::Listed(_) => 0,
        Answer::Traded(_) => 0,
        Answer::Refused(why) => refusal_number(why),
    }
}

// The series that a refusal names.
fn named_by(why: Refusal) -> Option<u8>
    ensures { result ≡ rule.named_by why }
{
    match why {
        Refusal::NoMark(i) => Some(i),
        _ => None,
    }
}

// The series that an answer names.
pub fn named(answer: Answer) -> Option<u8>
    ensures { result ≡ rule.named answer }
{
    match answer {
        Answer::Done => None,
        Answer::Listed(i) => Some(i),
        Answer::Traded(_) => None,
        Answer::Refused(why) => named_by(why),
    }
}

// The period that an answer tells.
pub fn period(answer: Answer) -> Option<u8>
    ensures { result ≡ rule.period_told answer }
{
    match answer {
        Answer::Done => None,
        Answer::Listed(_) => None,
        Answer::Traded(p) => Some(p),
        Answer::Refused(_) => None,
    }
}

// Whether an event is a session: others have their answer's line alone.
#[tactic(auto, using(crate::proofs::Sessions::session, crate::proofs::Sessions::no_session))]
pub fn is_session(event: Event) -> bool
    ensures { result ≡ is_session event }
{
    matches!(event, Event::Intraday | Event::Evening)
}
