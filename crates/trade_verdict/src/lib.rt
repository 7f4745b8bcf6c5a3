// Whether a trade may be made: the conditions, tested in the order of the rule.
#![tactic(auto)]

ghost use Rattle.std.specs.Prelude.{◌≡◌, ◌<◌};
ghost use Rattle.book.specs.Verdicts as rule;

use book::state::Today;
use places::PLACES;
use position_limit::limit;
use series::event::Deal;
use series::refusal::{Refusal, Verdict};
use series::state::Listing;
use terms::bounds::{BLOTTER, FINAL_DAY};
use trade_parties::parties;
use trade_terms::price;

// May this trade be made, in a series of this listing and these positions?
pub fn trade_verdict(
    today: Today,
    listing: Listing,
    positions: &[i32; PLACES],
    deal: Deal,
) -> Verdict
    requires { deal.series < today.listed → 0 < listing.tick }
    ensures { result ≡ rule.trade_verdict today listing positions.now deal }
{
    if FINAL_DAY < today.day {
        return Err(Refusal::Finished);
    }
    if today.listed <= deal.series as usize {
        return Err(Refusal::UnknownSeries);
    }
    if listing.last_day < today.day {
        return Err(Refusal::Expired);
    }
    parties(deal)?;
    price(listing.tick, deal)?;
    limit(positions, deal)?;
    if BLOTTER <= today.trades {
        return Err(Refusal::BlotterFull);
    }
    Ok(())
}
