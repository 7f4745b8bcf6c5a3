// What an event on one series does, or why it is refused.
#![tactic(auto)]

ghost use Rattle.std.specs.Prelude.{◌≡◌, ◌<◌};
ghost use Rattle.book.specs.Effects as rule;

use book::state::{Effect, Event, Today};
use marking::effect::mark;
use places::PLACES;
use requests::effect::{decline, exercise};
use series::refusal::Refusal;
use series::state::Listing;
use terms::bounds::SERIES;
use trading::effect::trade;

// The number of the series that an event is on; for an event on none it is past every series. No Option: the rule `series_of` is that
// number, and the law `step_stored` speaks of it.
pub fn series_of(event: Event) -> usize
    ensures { result ≡ rule.series_of event }
{
    match event {
        Event::List(_) => SERIES,
        Event::Trade(deal) => deal.series as usize,
        Event::Exercise(request) => request.series as usize,
        Event::Decline(waiver) => waiver.series as usize,
        Event::Mark(quote) => quote.series as usize,
        Event::Intraday => SERIES,
        Event::Evening => SERIES,
    }
}

// What the event does in a series of this listing and these positions. An event on no series is not asked for.
pub fn effect(today: Today, listing: Listing, positions: &[i32; PLACES], event: Event) -> Effect
    requires { rule.series_of event < today.listed → 0 < listing.tick }
    ensures { result ≡ rule.effect_of today listing positions.now event }
{
    match event {
        Event::List(_) => Effect::Refused(Refusal::UnknownSeries),
        Event::Trade(deal) => trade(today, listing, positions, deal),
        Event::Exercise(request) => exercise(today, listing, positions, request),
        Event::Decline(waiver) => decline(today, listing, waiver),
        Event::Mark(quote) => mark(today, listing, quote),
        Event::Intraday => Effect::Refused(Refusal::UnknownSeries),
        Event::Evening => Effect::Refused(Refusal::UnknownSeries),
    }
}
