// The clearing book: every event is carried out or refused, with the money of all accounts beside the answer.
#![tactic(auto)]

mod whole; // whole.rt: events on the whole book

ghost use Rattle.std.specs.Prelude.{◌≡◌, false};
ghost use Rattle.book.specs.Good.{Good};
ghost use Rattle.book.specs.Interest.{open_interest};
ghost use Rattle.book.specs.State.{empty_book, live};
ghost use Rattle.book.specs.Step.{step_of};

use book::state::{Book, Event, Step};
use listing::change::new_series;
use margin::trade::Trade;
use series::state::Listing;
use terms::bounds::{ACCOUNTS, BLOTTER, SERIES};
use terms::{Category, OptionType};
use today::today_of;

// A book at day 0, with no series and all else 0.
pub fn empty() -> Book
    ensures { (result ≡ empty_book) × Good result }
{
    let listing = Listing {
        option: OptionType::Call,
        category: Category::American,
        strike: 0,
        tick: 0,
        last_day: 0,
    };
    let blank = new_series(listing);
    let none = Trade {
        series: 0,
        buyer: 0,
        seller: 0,
        buyer_section: 0,
        seller_section: 0,
        period: 0,
        quantity: 0,
        price: 0,
    };
    Book {
        day: 0,
        listed: 0,
        series: [blank; SERIES],
        blotter: [none; BLOTTER],
        trades: 0,
        intraday_done: false,
        intraday_paid: [0i64; SERIES * ACCOUNTS],
        cash: [0i64; ACCOUNTS],
    }
}

// What the book answers to an event. An event on one series is made in place; `whole` has the others.
pub fn step(mut book: Book, event: Event) -> Step
    requires { Good book }
    ensures { (result ≡ step_of book event) × Good result.book }
{
    let i = effect::series_of(event);
    if SERIES <= i {
        return whole::whole(book, event);
    }
    let today = today_of(&book);
    let s = &mut book.series[i];
    let effect = effect::effect(today, s.listing, &s.positions, event);
    s.open_interest = apply::interest(s.open_interest, &s.positions, effect);
    apply::move_positions(&mut s.positions, effect);
    apply::set_request(&mut s.requests, effect);
    apply::set_decline(&mut s.declined, effect);
    s.mark = apply::mark(s.mark, effect);
    let n = recording::next_record(book.trades);
    book.blotter[n] = recording::entry(book.blotter[n], effect);
    book.trades = recording::counted(book.trades, effect);
    Step {
        answer: recording::answer(effect),
        money: [0i64; ACCOUNTS],
        book,
    }
}

// The open interest of a series, 0 for a number that isn't listed or has expired.
pub fn open_interest(book: &Book, series: u8) -> u32
    requires { Good book.now }
    ensures value { result ≡ open_interest book.now series }
    ensures not_live { live book.now series ≡ false → result ≡ 0 }
{
    let i = series as usize;
    if SERIES <= i {
        return 0;
    }
    book.series[i].open_interest
}
