// What the exercise of an evening leaves of a series: the positions that remain, and the futures that arise.
#![tactic(auto)]

ghost use Rattle.std.specs.Prelude.{◌≡◌, ℕ, ◌≤◌, ◌<◌, ◌^◌, pos};
ghost use Rattle.integer.specs.Bounds.{Within, Bounded};
ghost use Rattle.integer.specs.Table.{at, table};
ghost use Rattle.integer.specs.Sum.{sum_to, sumℕ};
ghost use Rattle.terms.specs.Bounds.{max_position};
ghost use Rattle.places.specs.Places.{places, amount};
ghost use Rattle.exercise.specs.Evening as rule;
ghost use Rattle.exercise.specs.Interest.{held_in_all};

use exercise::types::{Fixing, Outcome};
use places::PLACES;
use std::array::from_fn;
use terms::OptionType;

// The position that remains once contracts of it were exercised or assigned.
fn shrunk(position: i32, exercised: u32, assigned: u32) -> i32
    requires { (Within max_position position) × (exercised ≤ max_position) × (assigned ≤ max_position) }
    ensures { result ≡ rule.shrunk position exercised assigned }
{
    position - (exercised as i32) + (assigned as i32)
}

// The futures that arise from what a holder exercised and a writer was assigned.
fn futures(option: OptionType, exercised: u32, assigned: u32) -> i32
    requires { (exercised ≤ max_position) × (assigned ≤ max_position) }
    ensures { result ≡ rule.futures option exercised assigned }
{
    match option {
        OptionType::Call => (exercised as i32) - (assigned as i32),
        OptionType::Put => (assigned as i32) - (exercised as i32),
    }
}

// Both, place by place, with the open interest that is left.
fn by_place(
    option: OptionType,
    positions: [i32; PLACES],
    exercised: [u32; PLACES],
    assigned: [u32; PLACES],
    left: u32,
) -> Outcome
    requires { (Bounded max_position positions) × ((k : ℕ) → amount exercised k ≤ max_position) × ((k : ℕ) → amount assigned k ≤ max_position) }
    ensures { result ≡ record { positions = table places (λ k. rule.shrunk (at positions k) (amount exercised k) (amount assigned k)); futures = table places (λ k. rule.futures option (amount exercised k) (amount assigned k)); open_interest = left } }
{
    Outcome {
        positions: from_fn(|place| shrunk(positions[place], exercised[place], assigned[place])),
        futures: from_fn(|place| futures(option, exercised[place], assigned[place])),
        open_interest: left,
    }
}

// What is exercised in all.
fn total(exercised: [u32; PLACES]) -> u32
    requires { sumℕ places (amount exercised) < 2 ^ 32 }
    ensures { result ≡ sumℕ places (amount exercised) }
{
    let mut sum: u32 = 0;
    for number in &exercised {
        sum += *number;
    }
    sum
}

// What the exercise of an evening leaves of a series whose positions add up to 0, `interest` being their open interest: writers are assigned
// by it, and what is exercised in all is taken from it.
pub fn evening(
    fixing: Fixing,
    positions: [i32; PLACES],
    interest: u32,
    requests: [u32; PLACES],
    declined: [bool; PLACES],
) -> Outcome
    requires { (Bounded max_position positions) × (sum_to places (at positions) ≡ pos 0) × (interest ≡ held_in_all positions) }
    ensures { result ≡ rule.outcome fixing positions requests declined }
{
    let exercised = holders::exercised_by_place(fixing, positions, requests, declined);
    let in_all = total(exercised);
    if in_all == 0 {
        return Outcome {
            positions,
            futures: [0i32; PLACES],
            open_interest: interest,
        };
    }
    let assigned = writers::assign(in_all, interest, positions);
    by_place(
        fixing.option,
        positions,
        exercised,
        assigned,
        interest - in_all,
    )
}
