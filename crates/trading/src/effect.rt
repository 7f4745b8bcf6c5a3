ghost use Rattle.std.specs.Prelude.{◌≡◌, ◌<◌};
ghost use Rattle.book.specs.Effects as rule;
ghost use Rattle.book.specs.Step.{period_of, record_of};
ghost use Rattle.book.specs.Verdicts.{trade_verdict};
ghost use Rattle.book.specs.declared.state.Effect.TheVariants.{Traded};

use book::state::{Effect, Today};
use margin::trade::Trade;
use places::PLACES;
use series::event::Deal;
use series::state::Listing;
use trade_verdict::trade_verdict;

// The period of a trade, by whether the day's intraday session is over.
fn period_of(intraday_done: bool) -> u8
    ensures { result ≡ period_of intraday_done }
{
    if intraday_done { 2 } else { 1 }
}

// What a trade does, or why it is refused. It is made only once the verdict allows it: then its numbers fit.
pub fn trade(today: Today, listing: Listing, positions: &[i32; PLACES], deal: Deal) -> Effect
    requires { deal.series < today.listed → 0 < listing.tick }
    ensures { result ≡ rule.by_verdict (Traded (record_of today.intraday_done deal)) (trade_verdict today listing positions.now deal) }
{
    if let Err(why) = trade_verdict(today, listing, positions, deal) {
        return Effect::Refused(why);
    }
    let t = Trade {
        series: deal.series,
        buyer: deal.buyer,
        seller: deal.seller,
        buyer_section: deal.buyer_section as u8,
        seller_section: deal.seller_section as u8,
        period: period_of(today.intraday_done),
        quantity: deal.quantity as u16,
        price: deal.price as u32,
    };
    Effect::Traded(t)
}
