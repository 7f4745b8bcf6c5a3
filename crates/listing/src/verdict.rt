// The conditions, tested in the order of the refusals' numbers.
ghost use Rattle.std.specs.Prelude.{◌≡◌};
ghost use Rattle.book.specs.Verdicts as rule;

use book::state::Today;
use series::event::NewSeries;
use series::refusal::{Refusal, Verdict};
use terms::bounds::{FINAL_DAY, MAX_STRIKE, MAX_TICK, SERIES};

// May this series be listed?
pub fn list_verdict(today: Today, new: NewSeries) -> Verdict
    ensures { result ≡ rule.list_verdict today new }
{
    if FINAL_DAY < today.day {
        return Err(Refusal::Finished);
    }
    if new.strike < 1 {
        return Err(Refusal::Terms);
    }
    if MAX_STRIKE < new.strike {
        return Err(Refusal::Terms);
    }
    if new.tick < 1 {
        return Err(Refusal::Terms);
    }
    if MAX_TICK < new.tick {
        return Err(Refusal::Terms);
    }
    if new.last_day < today.day as u64 {
        return Err(Refusal::Terms);
    }
    if (FINAL_DAY as u64) < new.last_day {
        return Err(Refusal::Terms);
    }
    if SERIES <= today.listed {
        return Err(Refusal::SeriesFull);
    }
    Ok(())
}
