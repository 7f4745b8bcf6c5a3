// The mark of a series: made, or dropped.
ghost use Rattle.std.specs.Prelude.{◌≡◌};
ghost use Rattle.series.specs.Series.{no_mark};
ghost use Rattle.series.specs.Changes as rule;
ghost use Rattle.book.specs.Effects.{FittingQuote};

use series::event::Quote;
use series::state::{Mark, Series};

// No mark stands.
pub fn no_mark() -> Mark
    ensures { result ≡ no_mark }
{
    Mark {
        made: false,
        option: 0,
        future: 0,
        coefficient: 0,
    }
}

// The mark of a quote, for a series of this tick.
pub fn mark(tick: u32, quote: Quote) -> Mark
    requires { FittingQuote tick quote }
    ensures { result ≡ rule.mark_of tick quote }
{
    Mark {
        made: true,
        option: quote.option as u32,
        future: quote.future as u32,
        coefficient: valuation::coefficient(quote.tick_value as u32, tick) as u32,
    }
}

// The mark is dropped.
pub fn unmark(mut s: Series) -> Series
    ensures { result ≡ rule.unmarked s }
{
    let m = no_mark();
    s.mark = m;
    s
}
