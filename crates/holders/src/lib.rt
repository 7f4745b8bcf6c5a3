// What the holders of a series exercise.
#![tactic(auto)]

ghost use Rattle.std.specs.Prelude.{◌≡◌, min, max};
ghost use Rattle.integer.specs.Table.{at, table};
ghost use Rattle.places.specs.Places.{places, amount, flag};
ghost use Rattle.exercise.specs.Exercise as rule;
ghost use Rattle.exercise.specs.Evening.{exercised_at};

use exercise::types::Fixing;
use places::PLACES;
use std::array::from_fn;
use terms::OptionType;

// The contracts that a position holds, 0 where it is short.
pub fn held(position: i32) -> u32
    ensures { result ≡ rule.held position }
{
    if position > 0 { position as u32 } else { 0 }
}

// A call with strike below the futures price, or a put with strike above it.
fn in_the_money(option: OptionType, strike: u32, price: u32) -> bool
    ensures { result ≡ rule.in_the_money option strike price }
{
    match option {
        OptionType::Call => strike < price,
        OptionType::Put => price < strike,
    }
}

// Half of h contracts, a call rounded up and a put down.
fn half(option: OptionType, h: u32) -> u32
    ensures { result ≡ rule.half option h }
{
    match option {
        OptionType::Call => h - h / 2,
        OptionType::Put => h / 2,
    }
}

// The automatic exercise of h contracts.
fn automatic(fixing: Fixing, h: u32) -> u32
    ensures { result ≡ rule.automatic fixing h }
{
    if !fixing.last {
        return 0;
    }
    if in_the_money(fixing.option, fixing.strike, fixing.price) {
        return h;
    }
    if fixing.strike == fixing.price {
        return half(fixing.option, h);
    }
    0
}

// What the holder of a position exercises, 0 for who holds nothing.
pub fn exercised(fixing: Fixing, position: i32, request: u32, declined: bool) -> u32
    ensures { result ≡ rule.exercised fixing position request declined }
{
    let h = held(position);
    let wanted = h.min(request.max(automatic(fixing, h)));
    if declined { 0 } else { wanted }
}

// The same at each place of a series.
pub fn exercised_by_place(
    fixing: Fixing,
    positions: [i32; PLACES],
    requests: [u32; PLACES],
    declined: [bool; PLACES],
) -> [u32; PLACES]
    ensures { result ≡ table places (exercised_at places fixing (at positions) (amount requests) (flag declined)) }
{
    from_fn(|place| exercised(fixing, positions[place], requests[place], declined[place]))
}
