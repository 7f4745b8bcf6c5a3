// Reads rows of events from standard input and writes, after each, the open interest of every series.
#![tactic(auto)]

ghost use Rattle.std.specs.Prelude.{◌≡◌, ◌≤◌, length};
ghost use Rattle.book.specs.Good.{Good};
ghost use Rattle.calendar.specs.Days.{dates_of};
ghost use Rattle.rows.specs.Row.{row_of};
ghost use Rattle.stream.specs.Rows.{book_by};

use book::state::Book;
use buffers::fill;
use std::io::{Read, Write};
use stream::types::Input;
use terms::bounds::SERIES;

// The book after a row: its event is carried out or refused, and a row that is no event leaves the book.
fn after_row(calendar: &[u64], bytes: &[u8], book: Book) -> Book
    requires { Good book }
    ensures value { result ≡ book_by book (row_of (dates_of calendar.now) bytes.now) }
    ensures good { Good result }
{
    match row_reader::read_row(calendar, bytes) {
        Err(_) => book,
        Ok(event) => clearing::step(book, event).book,
    }
}

// The number of a row, and the open interest of each series number, listed or not.
fn line<W: Write>(output: &mut W, row: u64, book: &Book)
    requires { Good book.now }
{
    let _ = write!(output, "{row}");
    for series in 0..SERIES {
        let _ = write!(output, ",{}", clearing::open_interest(book, series as u8));
    }
    let _ = output.write_all(b"\n");
}

// The rows that a CRLF ends, each with its line; what stands after the last CRLF is no row here.
fn each_row<W: Write>(output: &mut W, calendar: &[u64], input: &[u8]) {
    let mut book = clearing::empty();
    let mut row: u64 = 0;
    let mut from = 0;
    while let Some(end) = row_cut::row_end(input, from) {
        book = after_row(calendar, &input[from..end], book);
        row = row.wrapping_add(1);
        line(output, row, &book);
        from = end + 2;
    }
}

// Reads until the buffer is full, the input ends or a read fails.
fn read_full<R: Read>(input: &mut R, buf: &mut [u8]) -> usize
    ensures { result ≤ length buf.new }
{
    let mut have = 0;
    // No `for`: a read may give fewer bytes than there is room for.
    while have < buf.len() {
        let Input::UpTo(end) = fill(input, buf, have) else {
            break;
        };
        have = end;
    }
    have
}

// The trading calendar has no date, and input past the buffer is not read.
fn main(rt: HostRuntime) {
    let mut input = rt.stdin();
    let mut output = rt.stdout();
    let mut space = [0; 65536];
    let buf: &mut [u8] = &mut space;
    let n = read_full(&mut input, buf);
    each_row(&mut output, &[], &buf[..n]);
}
