// The day of the full size for C: what bench/ calls.
#![tactic(auto)]

ghost use Rattle.std.specs.Prelude.{◌≡◌, ◌*◌, ◌%◌, ◌^◌};
ghost use Rattle.full_day.specs.Day as rule;

// The day's trades, on so many days; answers how many were carried out.
#[unsafe(no_mangle)]
pub extern "C" fn full_day_trades(days: u64) -> u64
    ensures { result ≡ (days * (rule.traded).trades) % 2 ^ 64 }
{
    full_day::full_day_trades(days)
}

// The evening after those trades, on so many days; answers how many were carried out.
#[unsafe(no_mangle)]
pub extern "C" fn full_day_evenings(days: u64) -> u64
    ensures { result ≡ (days * (rule.next_day).day) % 2 ^ 64 }
{
    full_day::full_day_evenings(days)
}
