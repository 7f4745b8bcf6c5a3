// What a session leaves of a series.
#![tactic(auto)]

pub mod expiry; // expiry.rt: one series after an evening

ghost use Rattle.std.specs.Prelude.{◌≡◌, not, ◌≤◌, ◌<◌};
ghost use Rattle.choice.specs.Choice.{choose};
ghost use Rattle.terms.specs.Bounds.{final_day};
ghost use Rattle.series.specs.Changes.{unmarked, settled};
ghost use Rattle.series.specs.Good.{GoodSeries};
ghost use Rattle.series.specs.Series.{expired};

use crate::expiry::settle;
use marking::change::unmark;
use series::state::Series;

// A series as the intraday session leaves it, if it is live.
pub fn after_intraday(s: Series, day: u32) -> Series
    ensures { result ≡ choose (not (expired s day)) (unmarked s) s }
{
    if s.listing.last_day < day {
        return s;
    }
    unmark(s)
}

// A series as the evening session leaves it, if it is live. It repeats the test of `after_intraday`: one function with the step as a
// parameter would be longer than both.
pub fn after_evening(s: Series, day: u32) -> Series
    requires { (GoodSeries day s) × (day ≤ final_day) }
    ensures { result ≡ choose (not (expired s day)) (settled s day) s }
{
    if s.listing.last_day < day {
        return s;
    }
    settle(s, day)
}
