// The positions of a series, in place.
ghost use Rattle.std.specs.Prelude.{◌≡◌};
ghost use Rattle.integer.specs.Bounds.{Bounded};
ghost use Rattle.terms.specs.Bounds.{max_position};
ghost use Rattle.series.specs.Changes as rule;
ghost use Rattle.book.specs.Effects.{FittingTrade};

use account_places::place_in;
use margin::trade::Trade;
use places::PLACES;

// The buyer's position rises, the seller's falls, each in its section.
pub fn trade(positions: &mut [i32; PLACES], t: Trade)
    requires { (FittingTrade t) × (Bounded max_position positions.old) }
    ensures { positions.new ≡ rule.moved positions.old t }
{
    let x = place_in(t.buyer as usize, t.buyer_section as usize);
    let y = place_in(t.seller as usize, t.seller_section as usize);
    let q = t.quantity as i32;
    positions[x] = positions[x] + q;
    positions[y] = positions[y] - q;
}
