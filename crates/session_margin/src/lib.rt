// The variation margin of a series in a session, account by account.
#![tactic(auto)]

ghost use Rattle.std.specs.Prelude.{◌≡◌, not};
ghost use Rattle.choice.specs.Choice.{choose};
ghost use Rattle.integer.specs.Table.{at, table};
ghost use Rattle.margin.specs.BySeries.{in_series};
ghost use Rattle.margin.specs.Margin.{CostsIn, margin_of};
ghost use Rattle.places.specs.Places.{of_account, Limited};
ghost use Rattle.terms.specs.Bounds.{series_room, max_position};
ghost use Rattle.series.specs.Good.{GoodSeries};
ghost use Rattle.series.specs.Series.{expired, position_of};
ghost use Rattle.book.specs.Good.{Good};
ghost use Rattle.book.specs.State.{series_at};

use amounts::revalue;
use book::state::Book;
use series::state::Series;
use std::array::from_fn;
use terms::bounds::{ACCOUNTS, SERIES};
use valuation::value;

// The coefficient of each series' mark.
pub fn coefficients(book: Book) -> [u32; SERIES]
    requires { Good book }
    ensures { result ≡ table series_room (λ i. (series_at book i).mark.coefficient) }
{
    from_fn(|i| book.series[i].mark.coefficient)
}

// The variation margin of a live series in the place of what its trades cost, where `next` is the series after the session.
pub fn revalue_series(
    amounts: &mut [i64; SERIES * ACCOUNTS],
    i: usize,
    s: Series,
    next: Series,
    day: u32,
)
    requires { (CostsIn i amounts.old) × (GoodSeries day s) × (Limited max_position next.positions) }
    ensures { amounts.new ≡ choose (not (expired s day)) (in_series i (λ a cost. margin_of s.mark.coefficient (position_of next a) s.mark.option (of_account (at s.opening) a) s.evening_price cost) amounts.old) amounts.old }
{
    if s.listing.last_day < day {
        return;
    }
    let c = s.mark.coefficient;
    let price_value = value(c, s.mark.option);
    let evening_value = value(c, s.evening_price);
    revalue(
        amounts,
        i,
        next.positions,
        s.opening,
        price_value,
        evening_value,
    );
}
