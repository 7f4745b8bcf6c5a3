// A day of the full size, in loops that hold the book: bench/ takes the time of a trade's step and of an evening's. Two functions, for
// each has its own rule.
#![tactic(auto)]

ghost use Rattle.std.specs.Prelude.{◌≡◌, ◌+◌, ◌*◌, ◌%◌, ◌^◌, ◌<◌, ◌≤◌};
ghost use Rattle.terms.specs.Bounds.{series_room, blotter_room};
ghost use Rattle.book.specs.Good.{Good};
ghost use Rattle.full_day.specs.Day as rule;

use book::state::{Book, Event};
use series::event::{Deal, NewSeries, Quote};
use terms::bounds::{BLOTTER, SERIES};
use terms::{Category, OptionType};

// The day's events are numbered: a listing of each series, the trades from here on, and from here on the marks.
const TRADES: usize = SERIES;

const MARKS: usize = SERIES + BLOTTER;

fn listing(n: usize) -> Event
    requires { n < series_room }
    ensures { result ≡ rule.listing n }
{
    Event::List(NewSeries {
        option: OptionType::Call,
        category: Category::American,
        strike: 100000,
        tick: 1,
        last_day: (n % 2 * 999) as u64,
    })
}

fn trade(n: usize) -> Event
    requires { n < blotter_room }
    ensures { result ≡ rule.trade n }
{
    Event::Trade(Deal {
        series: (n % 8) as u8,
        buyer: (n / 8) as u8,
        seller: (n / 8 + 32) as u8,
        quantity: (n + 1) as u64,
        price: (n + 5000) as u64,
        buyer_section: 0,
        seller_section: 0,
    })
}

fn mark(n: usize) -> Event
    requires { n < series_room }
    ensures { result ≡ rule.mark n }
{
    Event::Mark(Quote {
        series: n as u8,
        option: 5000,
        future: 100000,
        tick_value: 12345,
    })
}

fn event(n: usize) -> Event
    requires { n < rule.events }
    ensures { result ≡ rule.event n }
{
    if n < TRADES {
        return listing(n);
    }
    if n < MARKS {
        return trade(n - TRADES);
    }
    mark(n - MARKS)
}

// A book after so many events of the day.
fn after(mut book: Book, from: usize, count: usize) -> Book
    requires { (Good book) × (from + count ≤ rule.events) }
    ensures { (result ≡ rule.after book from count) × Good result }
{
    for n in 0..count {
        let step = clearing::step(book, event(from + n));
        book = step.book;
    }
    book
}

// The day's trades, on so many days; answers how many were carried out.
pub fn full_day_trades(days: u64) -> u64
    ensures { result ≡ (days * (rule.traded).trades) % 2 ^ 64 }
{
    let listed = after(clearing::empty(), 0, SERIES);
    let mut carried_out: u64 = 0;
    for _ in 0..days {
        let book = after(listed, TRADES, BLOTTER);
        carried_out = carried_out.wrapping_add(book.trades as u64);
    }
    carried_out
}

// The evening after those trades, on so many days; answers how many were carried out.
pub fn full_day_evenings(days: u64) -> u64
    ensures { result ≡ (days * (rule.next_day).day) % 2 ^ 64 }
{
    let full = after(clearing::empty(), 0, MARKS + SERIES);
    let mut carried_out: u64 = 0;
    for _ in 0..days {
        let step = clearing::step(full, Event::Evening);
        carried_out = carried_out.wrapping_add(step.book.day as u64);
    }
    carried_out
}
