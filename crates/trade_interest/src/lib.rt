// What a trade leaves of the open interest of its series, by the two places that it touches.
#![tactic(auto)]

ghost use Rattle.std.specs.Prelude.{◌≡◌, ◌-◌, ◌≤◌, pos, ◌+ℤ◌, ◌-ℤ◌};
ghost use Rattle.integer.specs.Bounds.{Within, Bounded};
ghost use Rattle.terms.specs.Bounds.{max_position, max_quantity};
ghost use Rattle.exercise.specs.Exercise as rule;
ghost use Rattle.exercise.specs.Interest.{held_in_all};
ghost use Rattle.series.specs.Changes.{moved};
ghost use Rattle.book.specs.Effects.{FittingTrade};

use account_places::place_in;
use holders::held;
use margin::trade::Trade;
use places::PLACES;

// The contracts that a position holds more once so many are bought.
fn opened(position: i32, quantity: u16) -> u32
    requires { (Within max_position position) × (quantity ≤ max_quantity) }
    ensures { result ≡ rule.held (position +ℤ pos quantity) - rule.held position }
{
    held(position + (quantity as i32)) - held(position)
}

// The contracts that a position holds less once so many are sold.
fn closed(position: i32, quantity: u16) -> u32
    requires { (Within max_position position) × (quantity ≤ max_quantity) }
    ensures { result ≡ rule.held position - rule.held (position -ℤ pos quantity) }
{
    held(position) - held(position - (quantity as i32))
}

// The open interest once a trade has moved the positions, from what it was: it rises by what the buyer's section then holds more, and falls
// by what the seller's then holds less.
pub fn after_trade(kept: u32, positions: &[i32; PLACES], t: Trade) -> u32
    requires { (FittingTrade t) × (Bounded max_position positions.now) × (kept ≡ held_in_all positions.now) }
    ensures { result ≡ held_in_all (moved positions.now t) }
{
    let x = place_in(t.buyer as usize, t.buyer_section as usize);
    let y = place_in(t.seller as usize, t.seller_section as usize);
    kept + opened(positions[x], t.quantity) - closed(positions[y], t.quantity)
}
