// The positions of all series, with the open interest of each, taken out of the series while rows are carried out, and put back.
#![tactic(auto)]

ghost use Rattle.std.specs.Prelude.{◌≡◌};
ghost use Rattle.book.specs.Apart as rule;

use book::state::Held;
use series::state::Series;
use std::array::from_fn;
use terms::bounds::SERIES;

// The positions and the open interest of each series.
pub fn taken_out(series: [Series; SERIES]) -> [Held; SERIES]
    ensures { result ≡ rule.taken_out series }
{
    from_fn(|i| Held {
        positions: series[i].positions,
        open_interest: series[i].open_interest,
    })
}

// Each series with its positions and its open interest.
pub fn put_back(mut series: [Series; SERIES], held: [Held; SERIES]) -> [Series; SERIES]
    ensures { result ≡ rule.put_back series held }
{
    for i in 0..SERIES {
        let s = &mut series[i];
        s.positions = held[i].positions;
        s.open_interest = held[i].open_interest;
    }
    series
}
