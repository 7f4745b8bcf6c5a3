// How many dates a calendar has at most, and how many bytes their lines: a date, CR and LF each.
use contract::bounds::DATE;

pub const MAX_DATES: usize = 1000;

pub const LINE: usize = DATE + 2;

pub const MAX_TEXT: usize = MAX_DATES * LINE;
