ghost use Rattle.std.specs.Prelude.{◌≡◌};
ghost use Rattle.book.specs.Effects as rule;
ghost use Rattle.book.specs.Verdicts.{exercise_verdict, decline_verdict};
ghost use Rattle.book.specs.declared.state.Effect.TheVariants.{Requested, Declined};

use book::state::{Effect, Today};
use places::PLACES;
use request_verdict::{decline_verdict, exercise_verdict};
use series::event::{Request, Waiver};
use series::state::Listing;

// What a request does, or why it is refused.
pub fn exercise(
    today: Today,
    listing: Listing,
    positions: &[i32; PLACES],
    request: Request,
) -> Effect
    ensures { result ≡ rule.by_verdict (Requested request) (exercise_verdict today listing positions.now request) }
{
    if let Err(why) = exercise_verdict(today, listing, positions, request) {
        return Effect::Refused(why);
    }
    Effect::Requested(request)
}

// What a decline does, or why it is refused.
pub fn decline(today: Today, listing: Listing, waiver: Waiver) -> Effect
    ensures { result ≡ rule.by_verdict (Declined waiver) (decline_verdict today listing waiver) }
{
    if let Err(why) = decline_verdict(today, listing, waiver) {
        return Effect::Refused(why);
    }
    Effect::Declined(waiver)
}
