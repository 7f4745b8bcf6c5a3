// One series after an evening: exercise, then expiry.
ghost use Rattle.std.specs.Prelude.{◌≡◌, ◌≤◌, ◌<◌, ◌+ℤ◌};
ghost use Rattle.choice.specs.Choice.{choose};
ghost use Rattle.places.specs.Places.{places};
ghost use Rattle.integer.specs.Bounds.{Bounded};
ghost use Rattle.integer.specs.Table.{at, table};
ghost use Rattle.margin.specs.Bounds.{max_futures};
ghost use Rattle.terms.specs.Bounds.{max_position, final_day};
ghost use Rattle.series.specs.Good.{GoodSeries};
ghost use Rattle.series.specs.Changes as rule;

use exercise::types::Fixing;
use marking::change::no_mark;
use places::PLACES;
use series::state::Series;
use std::array::from_fn;

// What stands after the evening, of the positions or of their open interest: what exercise leaves, and nothing on the last day.
fn closing<T: Copy>(remaining: T, none: T, last: bool) -> T
    ensures { result ≡ choose last none remaining }
{
    if last { none } else { remaining }
}

// The futures of each place, and those that arose.
fn grown(futures: [i32; PLACES], arisen: [i32; PLACES]) -> [i32; PLACES]
    requires { (Bounded max_futures futures) × (Bounded max_position arisen) }
    ensures { result ≡ table places (λ k. at futures k +ℤ at arisen k) }
{
    from_fn(|place| futures[place] + arisen[place])
}

// The series after the evening of a day: exercise, then expiry.
pub fn settle(s: Series, day: u32) -> Series
    requires { (GoodSeries day s) × (day ≤ final_day) }
    ensures { result ≡ rule.settled s day }
{
    let last = day == s.listing.last_day;
    let fixing = Fixing {
        option: s.listing.option,
        last,
        strike: s.listing.strike,
        price: s.mark.future,
    };
    let outcome = delivery::evening(fixing, s.positions, s.open_interest, s.requests, s.declined);
    let positions = closing(outcome.positions, [0i32; PLACES], last);
    Series {
        listing: s.listing,
        mark: no_mark(),
        evening_price: s.mark.option,
        open_interest: closing(outcome.open_interest, 0, last),
        positions,
        opening: positions,
        requests: [0u32; PLACES],
        declined: [false; PLACES],
        futures: grown(s.futures, outcome.futures),
    }
}
