use book::state::{Book, Event};

// The bytes of output that wait to be written, and whether no write before them failed.
#[derive(Clone, Copy)]
pub struct Waiting {
    pub at: usize,
    pub intact: bool,
}

// The book, the rows answered so far, and what waits of the output.
#[derive(Clone, Copy)]
pub struct Replay {
    pub book: Book,
    pub row: u64,
    pub waiting: Waiting,
}

// A row that is an event on one series, and where the row after it starts.
#[derive(Clone, Copy)]
pub struct SeriesRow {
    pub series: usize,
    pub event: Event,
    pub next: usize,
}

// What a read gave: input up to a place of the buffer, its end, or an error.
#[derive(Clone, Copy)]
pub enum Input {
    UpTo(usize),
    Ended,
    Failed,
}

// The replay, how many bytes of an unfinished row are kept at the buffer's front, and whether there is more to read.
#[derive(Clone, Copy)]
pub struct Run {
    pub replay: Replay,
    pub have: usize,
    pub going: bool,
}
