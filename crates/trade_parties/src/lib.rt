// Between whom a trade may be made: two accounts of the book, each with one of its sections.
#![tactic(auto)]

ghost use Rattle.std.specs.Prelude.{◌≡◌};
ghost use Rattle.book.specs.Verdicts as rule;

use places::SECTIONS;
use series::event::Deal;
use series::refusal::{Refusal, Verdict};
use terms::bounds::ACCOUNTS;

// May these two trade with one another?
pub fn parties(deal: Deal) -> Verdict
    ensures { result ≡ rule.parties_verdict deal }
{
    if ACCOUNTS <= deal.buyer as usize {
        return Err(Refusal::UnknownAccount);
    }
    if ACCOUNTS <= deal.seller as usize {
        return Err(Refusal::UnknownAccount);
    }
    if SECTIONS as u64 <= deal.buyer_section {
        return Err(Refusal::UnknownSection);
    }
    if SECTIONS as u64 <= deal.seller_section {
        return Err(Refusal::UnknownSection);
    }
    if deal.buyer == deal.seller {
        return Err(Refusal::OwnTrade);
    }
    Ok(())
}
