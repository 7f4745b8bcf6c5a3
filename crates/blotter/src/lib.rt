// What the day's trades cost each account in each series.
#![tactic(auto)]

ghost use Rattle.std.specs.Prelude.{◌≡◌, ◌≤◌, ◌*◌, pos, get_or};
ghost use Rattle.terms.specs.Bounds.{blotter_room, max_tick_value};
ghost use Rattle.value.specs.Value.{value_of};
ghost use Rattle.margin.specs.BySeries.{by_series};
ghost use Rattle.margin.specs.Margin.{TradeWithin, TradesWithin, CoefficientsWithin, trades_cost};

use margin::trade::Trade;
use terms::bounds::{ACCOUNTS, BLOTTER, SERIES};

// A trade's quantity × V(price).
fn amount(trade: Trade, coefficient: u32) -> i64
    requires trade_within { TradeWithin trade }
    requires coefficient_le_max_tick_value { coefficient ≤ max_tick_value }
    ensures { result ≡ pos (trade.quantity * value_of coefficient trade.price) }
{
    let worth = valuation::value(coefficient, trade.price);
    (trade.quantity as u64 * worth) as i64
}

// What the day's trades cost each account in each series, in one pass: the buyer pays, the seller receives.
pub fn traded(
    blotter: [Trade; BLOTTER],
    trades: usize,
    coefficients: [u32; SERIES],
) -> [i64; SERIES * ACCOUNTS]
    requires { (trades ≤ blotter_room) × (TradesWithin blotter trades) × (CoefficientsWithin coefficients) }
    ensures { result ≡ by_series (λ i a. trades_cost blotter trades i (get_or coefficients i 0) a) }
{
    let mut out = [0i64; SERIES * ACCOUNTS];
    for trade in &blotter[..trades] {
        let series = trade.series as usize;
        let first = series * ACCOUNTS;
        let buyer = first + trade.buyer as usize;
        let seller = first + trade.seller as usize;
        let due = amount(*trade, coefficients[series]);
        out[buyer] += due;
        out[seller] -= due;
    }
    out
}
