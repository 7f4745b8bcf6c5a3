// The requests and declines of a series, in place.
ghost use Rattle.std.specs.Prelude.{◌≡◌, ◌<◌, set};
ghost use Rattle.terms.specs.Bounds.{accounts};
ghost use Rattle.places.specs.Places.{sections, place_in};

use account_places::place_in;
use places::PLACES;

// What stands for an account's section is replaced.
fn put_at<T: Copy>(array: &mut [T; PLACES], account: u8, section: u64, value: T)
    requires { (account < accounts) × (section < sections) }
    ensures { array.new ≡ set array.old (place_in account section) value }
{
    let place = place_in(account as usize, section as usize);
    array[place] = value;
}

// The request of an account's section replaces the earlier one.
pub fn request(requests: &mut [u32; PLACES], account: u8, section: u64, quantity: u32)
    requires { (account < accounts) × (section < sections) }
    ensures { requests.new ≡ set requests.old (place_in account section) quantity }
{
    put_at(requests, account, section, quantity);
}

// An account's section declines exercise, or takes that back.
pub fn decline(declined: &mut [bool; PLACES], account: u8, section: u64, declines: bool)
    requires { (account < accounts) × (section < sections) }
    ensures { declined.new ≡ set declined.old (place_in account section) declines }
{
    put_at(declined, account, section, declines);
}
