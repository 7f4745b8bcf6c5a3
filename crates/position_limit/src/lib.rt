// The position limit: what each side of a trade has after it, its two sections added without sign.
#![tactic(auto)]

ghost use Rattle.std.specs.Prelude.{◌≡◌, ◌≤◌, ◌<◌, eqb, pos};
ghost use Rattle.choice.specs.Choice.{choose};
ghost use Rattle.integer.specs.Bounds.{Within};
ghost use Rattle.places.specs.Places.{sections};
ghost use Rattle.terms.specs.Bounds.{accounts, max_quantity};
ghost use Rattle.series.specs.Conditions.{gross_after, passes_limit};
ghost use Rattle.book.specs.Verdicts as rule;

use account_places::place_in;
use magnitude::magnitude;
use places::{PLACES, SECTIONS};
use series::event::Deal;
use series::refusal::{Refusal, Verdict};
use terms::bounds::MAX_POSITION;

// What a change of one section is to section s.
fn in_section(s: usize, section: usize, change: i64) -> i64
    ensures { result ≡ choose (eqb s section) change (pos 0) }
{
    if s == section { change } else { 0 }
}

// What an account has in all its sections, without sign, once it changes in one of them.
fn gross_after(positions: &[i32; PLACES], account: usize, section: usize, change: i64) -> u64
    requires { (account < accounts) × (section < sections) × (Within max_quantity change) }
    ensures { result ≡ gross_after positions.now account section change }
{
    let mut gross: u64 = 0;
    for s in 0..SECTIONS {
        let position = positions[place_in(account, s)] as i64 + in_section(s, section, change);
        gross += magnitude(position);
    }
    gross
}

// Would that pass the limit?
fn passes_limit(positions: &[i32; PLACES], account: u8, section: u64, change: i64) -> bool
    requires { (account < accounts) × (section < sections) × (Within max_quantity change) }
    ensures { result ≡ passes_limit (gross_after positions.now account section change) }
{
    MAX_POSITION < gross_after(positions, account as usize, section as usize, change)
}

// May both sides of a trade have what they have after it?
pub fn limit(positions: &[i32; PLACES], deal: Deal) -> Verdict
    requires { (deal.buyer < accounts) × (deal.seller < accounts) × (deal.buyer_section < sections) × (deal.seller_section < sections) × (deal.quantity ≤ max_quantity) }
    ensures { result ≡ rule.limit_verdict positions.now deal }
{
    let quantity = deal.quantity as i64;
    if passes_limit(positions, deal.buyer, deal.buyer_section, quantity) {
        return Err(Refusal::PositionLimit);
    }
    if passes_limit(positions, deal.seller, deal.seller_section, -quantity) {
        return Err(Refusal::PositionLimit);
    }
    Ok(())
}
