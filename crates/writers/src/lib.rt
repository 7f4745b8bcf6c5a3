// What the writers of a series are assigned.
#![tactic(auto)]

ghost use Rattle.std.specs.Prelude.{◌≡◌, ◌≤◌, ◌<◌, ◌^◌};
ghost use Rattle.integer.specs.Sum.{sumℕ};
ghost use Rattle.integer.specs.Table.{at, table};
ghost use Rattle.places.specs.Places.{places, amount};
ghost use Rattle.exercise.specs.Exercise as rule;
ghost use Rattle.exercise.specs.Assignment.{whole_part, remainder, assigned};
ghost use Rattle.exercise.specs.Interest.{short_in_all};

use exercise::types::Shares;
use places::PLACES;
use std::array::from_fn;

// The contracts that a position is short, 0 where it holds.
fn short(position: i32) -> u32
    ensures { result ≡ rule.short position }
{
    if position < 0 {
        position.unsigned_abs()
    } else {
        0
    }
}

// The same at each place of a series.
fn short_by_place(positions: [i32; PLACES]) -> [u32; PLACES]
    ensures { result ≡ table places (λ k. rule.short (at positions k)) }
{
    from_fn(|place| short(positions[place]))
}

// Each writer's share of `exercised` contracts, where the writers are short `interest` in all, and what the whole parts are in all. Who is
// short of nothing has 0 without a division.
fn shares(exercised: u64, interest: u64, shorts: [u32; PLACES]) -> Shares
    requires { (0 < interest) × (exercised ≤ interest) × (interest < 2 ^ 32) }
    ensures { result ≡ record { whole = table places (whole_part exercised interest (amount shorts)); remainder = table places (remainder exercised interest (amount shorts)); given = sumℕ places (whole_part exercised interest (amount shorts)) } }
{
    let mut whole = [0u32; PLACES];
    let mut remainder = [0u32; PLACES];
    let mut given: u64 = 0;
    for place in 0..PLACES {
        if shorts[place] != 0 {
            let product = exercised * u64::from(shorts[place]);
            let contracts = product / interest;
            whole[place] = contracts as u32;
            remainder[place] = (product % interest) as u32;
            given += contracts;
        }
    }
    Shares {
        whole,
        remainder,
        given,
    }
}

// What each writer is assigned of `exercised` contracts, where the writers are short `interest` in all: its whole part, and one more at the
// largest remainder for each contract left over. A place that got one is out of the search.
fn by_largest_remainders(exercised: u64, interest: u64, shorts: [u32; PLACES]) -> [u32; PLACES]
    requires { (0 < exercised) × (exercised ≤ interest) × (interest < 2 ^ 32) × (interest ≡ sumℕ places (amount shorts)) }
    ensures { result ≡ table places (assigned places exercised (amount shorts)) }
{
    let parts = shares(exercised, interest, shorts);
    let mut out = parts.whole;
    let mut rest = parts.remainder;
    let left = exercised - parts.given;
    for _ in 0..left {
        let mut largest: usize = 0;
        for place in 1..PLACES {
            if rest[largest] < rest[place] {
                largest = place;
            }
        }
        out[largest] += 1;
        rest[largest] = 0;
    }
    out
}

// What each place is assigned of `exercised` contracts, where the open interest of the positions is `interest`.
pub fn assign(exercised: u32, interest: u32, positions: [i32; PLACES]) -> [u32; PLACES]
    requires { (exercised ≤ interest) × (interest ≡ short_in_all positions) }
    ensures { result ≡ table places (assigned places exercised (λ k. rule.short (at positions k))) }
{
    if exercised == 0 {
        return [0u32; PLACES];
    }
    by_largest_remainders(
        u64::from(exercised),
        u64::from(interest),
        short_by_place(positions),
    )
}
