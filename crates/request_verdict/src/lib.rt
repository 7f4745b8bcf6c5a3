// Whether a request to exercise or a decline may be made: the conditions, tested in the order of the rule. The tests that both begin with
// stand in both, so that each chain is read beside that of its rule.
#![tactic(auto)]

ghost use Rattle.std.specs.Prelude.{◌≡◌, ◌<◌};
ghost use Rattle.series.specs.Conditions.{too_early};
ghost use Rattle.book.specs.Verdicts as rule;

use account_places::place_in;
use book::state::Today;
use holders::held;
use places::{PLACES, SECTIONS};
use series::event::{Request, Waiver};
use series::refusal::{Refusal, Verdict};
use series::state::Listing;
use terms::Category;
use terms::bounds::{ACCOUNTS, FINAL_DAY};

// Is a request too early for the option's category?
fn too_early(category: Category, day: u32, last: u32) -> bool
    ensures { result ≡ too_early category day last }
{
    match category {
        Category::American => false,
        Category::European => day < last,
    }
}

// May this request be made, in a series of this listing and these positions?
pub fn exercise_verdict(
    today: Today,
    listing: Listing,
    positions: &[i32; PLACES],
    request: Request,
) -> Verdict
    ensures { result ≡ rule.exercise_verdict today listing positions.now request }
{
    if FINAL_DAY < today.day {
        return Err(Refusal::Finished);
    }
    if today.listed <= request.series as usize {
        return Err(Refusal::UnknownSeries);
    }
    if listing.last_day < today.day {
        return Err(Refusal::Expired);
    }
    if ACCOUNTS <= request.account as usize {
        return Err(Refusal::UnknownAccount);
    }
    if SECTIONS as u64 <= request.section {
        return Err(Refusal::UnknownSection);
    }
    let category = listing.category;
    if too_early(category, today.day, listing.last_day) {
        return Err(Refusal::NotToday);
    }
    let place = place_in(request.account as usize, request.section as usize);
    if (held(positions[place]) as u64) < request.quantity {
        return Err(Refusal::NotHeld);
    }
    Ok(())
}

// May this section of an account decline exercise?
pub fn decline_verdict(today: Today, listing: Listing, waiver: Waiver) -> Verdict
    ensures { result ≡ rule.decline_verdict today listing waiver }
{
    if FINAL_DAY < today.day {
        return Err(Refusal::Finished);
    }
    if today.listed <= waiver.series as usize {
        return Err(Refusal::UnknownSeries);
    }
    if listing.last_day < today.day {
        return Err(Refusal::Expired);
    }
    if ACCOUNTS <= waiver.account as usize {
        return Err(Refusal::UnknownAccount);
    }
    if SECTIONS as u64 <= waiver.section {
        return Err(Refusal::UnknownSection);
    }
    if today.day < listing.last_day {
        return Err(Refusal::NotToday);
    }
    Ok(())
}
