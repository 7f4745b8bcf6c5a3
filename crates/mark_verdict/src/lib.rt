// Whether a mark may be made: the conditions, tested in the order of the refusals' numbers.
#![tactic(auto)]

ghost use Rattle.std.specs.Prelude.{◌≡◌, ◌<◌};
ghost use Rattle.book.specs.Verdicts as rule;

use book::state::Today;
use series::event::Quote;
use series::refusal::{Refusal, Verdict};
use series::state::Listing;
use terms::bounds::{FINAL_DAY, MAX_FUTURES_PRICE, MAX_OPTION_PRICE, MAX_TICK_VALUE};

// May a series of this listing be marked with these prices and this tick value?
pub fn mark_verdict(today: Today, listing: Listing, quote: Quote) -> Verdict
    ensures { result ≡ rule.mark_verdict today listing quote }
{
    if FINAL_DAY < today.day {
        return Err(Refusal::Finished);
    }
    if today.listed <= quote.series as usize {
        return Err(Refusal::UnknownSeries);
    }
    if listing.last_day < today.day {
        return Err(Refusal::Expired);
    }
    if MAX_OPTION_PRICE < quote.option {
        return Err(Refusal::Price);
    }
    if MAX_FUTURES_PRICE < quote.future {
        return Err(Refusal::Price);
    }
    if quote.tick_value < 1 {
        return Err(Refusal::TickValue);
    }
    if MAX_TICK_VALUE < quote.tick_value {
        return Err(Refusal::TickValue);
    }
    let c = valuation::coefficient(quote.tick_value as u32, listing.tick);
    if c < 1 {
        return Err(Refusal::TickValue);
    }
    if MAX_TICK_VALUE < c {
        return Err(Refusal::TickValue);
    }
    Ok(())
}
