// The number of each refusal, in the order of their table (RULES, "Refusals").
pub const FINISHED: u64 = 1;

pub const UNKNOWN_SERIES: u64 = 2;

pub const EXPIRED: u64 = 3;

pub const UNKNOWN_ACCOUNT: u64 = 4;

pub const OWN_TRADE: u64 = 5;

pub const SIZE: u64 = 6;

pub const PRICE: u64 = 7;

pub const POSITION_LIMIT: u64 = 8;

pub const BLOTTER_FULL: u64 = 9;

pub const TERMS: u64 = 10;

pub const SERIES_FULL: u64 = 11;

pub const NOT_TODAY: u64 = 12;

pub const NOT_HELD: u64 = 13;

pub const TICK_VALUE: u64 = 14;

pub const SECOND_INTRADAY: u64 = 15;

pub const NO_MARK: u64 = 16;

pub const CODE: u64 = 17;

pub const DATE: u64 = 18;

pub const STRIKE_TEXT: u64 = 19;

pub const ROW: u64 = 20;

pub const CALENDAR: u64 = 21;

pub const NO_TRADING_DATE: u64 = 22;

pub const UNKNOWN_SECTION: u64 = 23;
