// The quantity and the price of a trade.
#![tactic(auto)]

ghost use Rattle.std.specs.Prelude.{◌≡◌, ◌<◌};
ghost use Rattle.book.specs.Verdicts as rule;

use series::event::Deal;
use series::refusal::{Refusal, Verdict};
use terms::bounds::{MAX_OPTION_PRICE, MAX_QUANTITY};

// May so many contracts be traded at this price, in a series of this tick?
pub fn price(tick: u32, deal: Deal) -> Verdict
    requires { 0 < tick }
    ensures { result ≡ rule.price_verdict tick deal }
{
    if deal.quantity < 1 {
        return Err(Refusal::Size);
    }
    if MAX_QUANTITY < deal.quantity {
        return Err(Refusal::Size);
    }
    if MAX_OPTION_PRICE < deal.price {
        return Err(Refusal::Price);
    }
    if 0 < deal.price % tick as u64 {
        return Err(Refusal::Price);
    }
    Ok(())
}
