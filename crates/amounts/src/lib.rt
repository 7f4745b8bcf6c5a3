// Money in kopecks: by series and account, series i, account a at i * ACCOUNTS + a; and of all accounts.
#![tactic(auto)]

ghost use Rattle.std.specs.Prelude.{◌≡◌, pos, ◌+ℤ◌, ◌-ℤ◌, ◌*ℤ◌, ◌<◌, ◌*◌};
ghost use Rattle.integer.specs.Bounds.{Bounded};
ghost use Rattle.integer.specs.Sum.{sum_to};
ghost use Rattle.integer.specs.Table.{at, table};
ghost use Rattle.places.specs.Places.{of_account};
ghost use Rattle.terms.specs.Bounds.{accounts, series_room};
ghost use Rattle.margin.specs.Bounds.{most_in_a_series, most_in_a_day, max_cash};
ghost use Rattle.margin.specs.BySeries.{cell, cells, in_series, in_all};
ghost use Rattle.margin.specs.Margin.{CostsIn, Revaluable};

use places::PLACES;
use std::array::from_fn;
use terms::bounds::{ACCOUNTS, SERIES};

// The variation margin of a series, n × V(p) − B × V(b) less what its trades cost, in the place of what they cost. `price_value` is V(p)
// and `evening_value` is V(b).
pub fn revalue(
    amounts: &mut [i64; SERIES * ACCOUNTS],
    series: usize,
    positions: [i32; PLACES],
    opening: [i32; PLACES],
    price_value: u64,
    evening_value: u64,
)
    requires { (CostsIn series amounts.old) × (Revaluable positions opening price_value evening_value) }
    ensures { amounts.new ≡ in_series series (λ a cost. of_account (at positions) a *ℤ pos price_value -ℤ of_account (at opening) a *ℤ pos evening_value -ℤ cost) amounts.old }
{
    let first = series * ACCOUNTS;
    for a in 0..ACCOUNTS {
        let n = account_places::of_account(&positions, a);
        let b = account_places::of_account(&opening, a);
        let gain = n * price_value as i64 - b * evening_value as i64;
        amounts[first + a] = gain - amounts[first + a];
    }
}

// What is left of each amount once what was paid is taken away.
pub fn less(
    amounts: [i64; SERIES * ACCOUNTS],
    paid: [i64; SERIES * ACCOUNTS],
) -> [i64; SERIES * ACCOUNTS]
    requires { (Bounded most_in_a_series amounts) × (Bounded most_in_a_series paid) }
    ensures { result ≡ table cells (λ k. at amounts k -ℤ at paid k) }
{
    from_fn(|k| amounts[k] - paid[k])
}

// An account's amounts of all series, added up.
fn of_account(amounts: &[i64; SERIES * ACCOUNTS], account: usize) -> i64
    requires { (Bounded (2 * most_in_a_series) amounts.now) × (account < accounts) }
    ensures { result ≡ sum_to series_room (λ i. at amounts.now (cell i account)) }
{
    let mut sum: i64 = 0;
    for i in 0..SERIES {
        sum += amounts[i * ACCOUNTS + account];
    }
    sum
}

// The same for each account.
pub fn in_all(amounts: &[i64; SERIES * ACCOUNTS]) -> [i64; ACCOUNTS]
    requires { Bounded (2 * most_in_a_series) amounts.now }
    ensures { result ≡ in_all amounts.now }
{
    from_fn(|a| of_account(amounts, a))
}

// The cash of each account once its money is paid.
pub fn pay(cash: [i64; ACCOUNTS], money: [i64; ACCOUNTS]) -> [i64; ACCOUNTS]
    requires { (Bounded max_cash cash) × (Bounded (2 * most_in_a_day) money) }
    ensures { result ≡ table accounts (λ a. at cash a +ℤ at money a) }
{
    from_fn(|a| cash[a] + money[a])
}
