// What an effect leaves of the blotter, and its answer.
#![tactic(auto)]

ghost use Rattle.std.specs.Prelude.{◌≡◌, ◌≤◌};
ghost use Rattle.terms.specs.Bounds.{blotter_room};
ghost use Rattle.book.specs.Effects as rule;

use book::state::{Answer, Effect};
use margin::trade::Trade;
use terms::bounds::BLOTTER;

// The place of the blotter's next record, or of its last one where the blotter is full. No Option: every effect stores one record, if
// only the one that stands there, and the law `step_stored` speaks of its place, `next_record`.
pub fn next_record(trades: usize) -> usize
    ensures { result ≡ rule.next_record trades }
{
    if trades < BLOTTER {
        trades
    } else {
        BLOTTER - 1
    }
}

// That record: a trade joins the blotter.
pub fn entry(standing: Trade, effect: Effect) -> Trade
    ensures { result ≡ rule.record_by effect standing }
{
    match effect {
        Effect::Traded(t) => t,
        _ => standing,
    }
}

// How many trades stand today.
pub fn counted(standing: usize, effect: Effect) -> usize
    requires { standing ≤ blotter_room }
    ensures { result ≡ rule.trades_by effect standing }
{
    match effect {
        Effect::Traded(_) => standing + 1,
        _ => standing,
    }
}

// The answer: a trade that is carried out tells its period.
pub fn answer(effect: Effect) -> Answer
    ensures { result ≡ rule.answer_by effect }
{
    match effect {
        Effect::Refused(why) => Answer::Refused(why),
        Effect::Traded(t) => Answer::Traded(t.period),
        _ => Answer::Done,
    }
}
