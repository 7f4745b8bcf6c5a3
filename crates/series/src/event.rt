// The data of the events. They take any numbers: only what passed the tests is stored. Strike, tick and prices are in hundredths,
// the tick value in 0.00001 rouble.
use terms::{Category, OptionType};

// A series to be listed.
#[derive(Clone, Copy)]
pub struct NewSeries {
    pub option: OptionType,
    pub category: Category,
    pub strike: u64,
    pub tick: u64,
    pub last_day: u64,
}

// A trade to be made.
#[derive(Clone, Copy)]
pub struct Deal {
    pub series: u8,
    pub buyer: u8,
    pub seller: u8,
    pub quantity: u64,
    pub price: u64,
    pub buyer_section: u64,
    pub seller_section: u64,
}

// A request to exercise, for a section of an account.
#[derive(Clone, Copy)]
pub struct Request {
    pub series: u8,
    pub account: u8,
    pub quantity: u64,
    pub section: u64,
}

// A holder's refusal of exercise, for a section of an account.
#[derive(Clone, Copy)]
pub struct Waiver {
    pub series: u8,
    pub account: u8,
    pub section: u64,
}

// The settlement prices of a series' option and future, and its tick value.
#[derive(Clone, Copy)]
pub struct Quote {
    pub series: u8,
    pub option: u64,
    pub future: u64,
    pub tick_value: u64,
}
