// What an effect leaves of a series. The arrays are changed in place.
#![tactic(auto)]

ghost use Rattle.std.specs.Prelude.{◌≡◌};
ghost use Rattle.integer.specs.Bounds.{Bounded};
ghost use Rattle.terms.specs.Bounds.{max_position};
ghost use Rattle.exercise.specs.Interest.{held_in_all};
ghost use Rattle.book.specs.Effects as rule;

use book::state::Effect;
use places::PLACES;
use requests::change::{decline, request};
use series::state::Mark;
use trade_interest::after_trade;
use trading::change::trade;

// A trade moves the positions of buyer and seller.
pub fn move_positions(positions: &mut [i32; PLACES], effect: Effect)
    requires { (rule.Fits effect) × (Bounded max_position positions.old) }
    ensures { positions.new ≡ rule.positions_by effect positions.old }
{
    match effect {
        Effect::Traded(t) => trade(positions, t),
        _ => {}
    }
}

// The open interest after an effect, from the positions before it: a trade changes it by what it moves, no other effect does.
pub fn interest(kept: u32, positions: &[i32; PLACES], effect: Effect) -> u32
    requires { (rule.Fits effect) × (Bounded max_position positions.now) × (kept ≡ held_in_all positions.now) }
    ensures { result ≡ rule.interest_by effect positions.now kept }
{
    match effect {
        Effect::Traded(t) => after_trade(kept, positions, t),
        _ => kept,
    }
}

// A request replaces the section's earlier one, a decline sets it to 0.
pub fn set_request(requests: &mut [u32; PLACES], effect: Effect)
    requires { rule.Fits effect }
    ensures { requests.new ≡ rule.requests_by effect requests.old }
{
    match effect {
        Effect::Requested(r) => request(requests, r.account, r.section, r.quantity as u32),
        Effect::Declined(w) => request(requests, w.account, w.section, 0),
        _ => {}
    }
}

// A request takes the section's decline back.
pub fn set_decline(declined: &mut [bool; PLACES], effect: Effect)
    requires { rule.Fits effect }
    ensures { declined.new ≡ rule.declines_by effect declined.old }
{
    match effect {
        Effect::Requested(r) => decline(declined, r.account, r.section, false),
        Effect::Declined(w) => decline(declined, w.account, w.section, true),
        _ => {}
    }
}

// The mark of the series: a later one replaces an earlier one.
pub fn mark(earlier: Mark, effect: Effect) -> Mark
    ensures { result ≡ rule.mark_by effect earlier }
{
    match effect {
        Effect::Marked(m) => m,
        _ => earlier,
    }
}
