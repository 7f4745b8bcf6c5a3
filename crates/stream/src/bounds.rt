// The room of the output in bytes: of a line, of all lines of a row, of the buffer, and of what may wait in it where one more row must fit.
use terms::bounds::{ACCOUNTS, SERIES};

pub const LINE_ROOM: usize = 64;

pub const ROW_ROOM: usize = LINE_ROOM + ACCOUNTS * LINE_ROOM + SERIES * ACCOUNTS * LINE_ROOM;

pub const OUTPUT_ROOM: usize = 65536;

pub const WAITING_ROOM: usize = OUTPUT_ROOM - ROW_ROOM;
