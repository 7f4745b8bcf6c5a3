// Where an account's numbers stand in an array of a series, and their sum.
#![tactic(auto)]

ghost use Rattle.std.specs.Prelude.{◌≡◌, ◌<◌};
ghost use Rattle.integer.specs.Table.{at};
ghost use Rattle.terms.specs.Bounds.{accounts};
ghost use Rattle.places.specs.Places.{places, place_in, of_account, sections};

use places::{PLACES, SECTIONS};

// The place of an account's section.
pub fn place_in(account: usize, section: usize) -> usize
    requires { (account < accounts) × (section < sections) }
    ensures value { result ≡ place_in account section }
    ensures upper_bound { result < places }
{
    account * SECTIONS + section
}

// The sum of an account's numbers, over its places.
pub fn of_account(numbers: &[i32; PLACES], account: usize) -> i64
    requires { account < accounts }
    ensures { result ≡ of_account (at numbers.now) account }
{
    let mut sum: i64 = 0;
    for section in 0..SECTIONS {
        sum += numbers[place_in(account, section)] as i64;
    }
    sum
}
