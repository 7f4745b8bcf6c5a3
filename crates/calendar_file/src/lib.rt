// The file of the trading calendar, in the folder that the program runs in.
#![tactic(auto)]

ghost use Rattle.std.specs.Prelude.{◌+◌, ◌<◌, ◌≡◌, length};
ghost use Rattle.calendar.specs.Text.{max_text};
ghost use Rattle.calendar.specs.File.{InBuffer, LoadedFrom, LoadedBy, Loaded};

use buffers::fill;
use calendar::bounds::MAX_TEXT;
use calendar::types::{Dates, Opened};
use calendar_found::{of_contents, opened, without_dates};
use std::io::{ErrorKind, Read};
use std::rt::Files;
use std::{fs, io};
use stream::types::Input;

// Reads until the file ends or the buffer is full.
fn contents<R: Read>(input: &mut R, buf: &mut [u8]) -> Option<usize>
    ensures { InBuffer (length buf.old) result }
{
    let mut have = 0;
    // no count: a read may give fewer bytes than there is room for
    while have < buf.len() {
        match fill(input, buf, have) {
            Input::UpTo(end) => {
                have = end;
            }
            Input::Ended => {
                return Some(have);
            }
            Input::Failed => {
                return None;
            }
        }
    }
    Some(have)
}

// The calendar that a file holds: a byte more than those of the longest calendar is asked for, and no more.
fn read_through<R: Read>(input: &mut R, buf: &mut [u8]) -> Option<Dates>
    requires { length buf.old ≡ max_text + 1 }
    ensures { LoadedFrom result }
{
    let found = contents(input, buf);
    of_contents(found, buf)
}

// The calendar of a file that was opened, which is closed then; of one that wasn't nothing is read.
fn read_file<R: Read + Drop>(input: io::Result<R>) -> Option<Dates>
    ensures { LoadedFrom result }
{
    let mut space = [0; MAX_TEXT + 1];
    let buf: &mut [u8] = &mut space;
    match input {
        Ok(mut file) => read_through(&mut file, buf),
        Err(_) => of_contents(None, buf),
    }
}

// The calendar by what opening its file told.
fn load_by<R: Read + Drop>(input: io::Result<R>, found: Opened) -> Option<Dates>
    ensures { LoadedBy found result }
{
    match found {
        Opened::Missing => Some(without_dates()),
        Opened::Unreadable => None,
        Opened::Readable => read_file(input),
    }
}

// Whether opening it failed for want of such a file.
fn is_missing<R>(input: &io::Result<R>) -> bool {
    match input {
        Ok(_) => false,
        Err(why) => why.kind() == ErrorKind::NotFound,
    }
}

// Whether a link has this name, wherever it leads.
fn is_link<H: Files>(files: &H, name: &str) -> bool {
    match fs::symlink_metadata(files, name) {
        Ok(found) => found.is_symlink(),
        Err(_) => false,
    }
}

// The calendar of the file calendar.txt: without dates where there is none, and no calendar where it can't be read.
pub fn load<H: Files>(files: &H) -> Option<Dates>
    ensures { Loaded result }
{
    let name = "calendar.txt";
    let input = fs::open(files, name);
    let readable = input.is_ok();
    let missing = is_missing(&input);
    let link = is_link(files, name);
    let found = opened(readable, link, missing);
    load_by(input, found)
}
