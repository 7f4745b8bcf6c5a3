// The day of a date in the trading calendar.
#![tactic(auto)]

ghost use Rattle.std.specs.Prelude.{◌≡◌};
ghost use Rattle.calendar.specs.Days.{same_date, date_of, dates_of, day_of};

use contract::types::Date;

// Whether the number YYMMDD is that of a date: whatever the date's own numbers are, day, month and year are compared one by one.
// No == of dates: they have none, and nothing else compares two.
fn is_date(number: u64, date: Date) -> bool
    ensures { result ≡ same_date (date_of number) date }
{
    if number % 100 != date.day {
        return false;
    }
    if number / 100 % 100 != date.month {
        return false;
    }
    number / 10000 == date.year
}

// The day of a date: its place in the calendar, from 0 on; or none.
pub fn day_of(calendar: &[u64], date: Date) -> Option<u64>
    ensures { result ≡ day_of (dates_of calendar.now) date }
{
    let place = calendar.iter().position(|number| is_date(*number, date))?;
    Some(place as u64)
}
