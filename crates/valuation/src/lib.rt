// Rounding, the coefficient of a tick value, and the value of a price in kopecks.
#![tactic(auto)]

ghost use Rattle.std.specs.Prelude.{◌≡◌};
ghost use Rattle.value.specs.Rounding.{nearest};
ghost use Rattle.value.specs.Value.{coefficient_of, value_of};

// n / d to the nearest whole number, a half upwards; 0 where d is 0.
pub fn rounded(n: u64, d: u64) -> u64
    ensures { result ≡ nearest n d }
{
    if d == 0 {
        return 0;
    }
    let whole = n / d;
    let rest = n % d;
    if rest < d - rest { whole } else { whole + 1 }
}

// The coefficient c of a tick value, in 0.00001 rouble, and a tick, in hundredths.
pub fn coefficient(tick_value: u32, tick: u32) -> u64
    ensures { result ≡ coefficient_of tick_value tick }
{
    rounded(u64::from(tick_value) * 100, u64::from(tick))
}

// The value of a price, in hundredths, in kopecks.
pub fn value(coefficient: u32, price: u32) -> u64
    ensures { result ≡ value_of coefficient price }
{
    rounded(u64::from(price) * u64::from(coefficient), 100000)
}
