// What the calendar's reader answers, and what is found of its file.
use crate::bounds::MAX_DATES;

// The dates of a calendar: the first of the numbers, a date being the number YYMMDD.
#[derive(Clone, Copy)]
pub struct Dates {
    pub numbers: [u64; MAX_DATES],
    pub count: usize,
}

// The file of the calendar: there is none, it was opened, or it is there and can't be opened. No Option or Result:
// that there is none is no failure, and no kind has a value.
#[derive(Clone, Copy)]
pub enum Opened {
    Missing,
    Readable,
    Unreadable,
}
