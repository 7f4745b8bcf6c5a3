ghost use Rattle.std.specs.Prelude.{◌≡◌};
ghost use Rattle.series.specs.Changes.{mark_of};
ghost use Rattle.book.specs.Effects as rule;
ghost use Rattle.book.specs.Verdicts.{mark_verdict};
ghost use Rattle.book.specs.declared.state.Effect.TheVariants.{Marked};

use crate::change;
use book::state::{Effect, Today};
use mark_verdict::mark_verdict;
use series::event::Quote;
use series::state::Listing;

// What a mark does, or why it is refused. It is made only once the verdict allows it: then its numbers fit.
pub fn mark(today: Today, listing: Listing, quote: Quote) -> Effect
    ensures { result ≡ rule.by_verdict (Marked (mark_of listing.tick quote)) (mark_verdict today listing quote) }
{
    if let Err(why) = mark_verdict(today, listing, quote) {
        return Effect::Refused(why);
    }
    let m = change::mark(listing.tick, quote);
    Effect::Marked(m)
}
