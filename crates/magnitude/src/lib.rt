// A number without its sign.
#![tactic(auto)]

ghost use Rattle.std.specs.Prelude.{◌≡◌, ◌^◌, ◌≤◌, nat_abs};

pub fn magnitude(x: i64) -> u64
    ensures { (result ≡ nat_abs x) × (result ≤ 2 ^ 63) }
{
    x.unsigned_abs()
}
