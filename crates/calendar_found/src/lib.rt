// The trading calendar by what is found of its file.
#![tactic(auto)]

ghost use Rattle.std.specs.Prelude.{◌≡◌, length, replicate};
ghost use Rattle.calendar.specs.Days.{max_dates};
ghost use Rattle.calendar.specs.Text.{ReadAs};
ghost use Rattle.calendar.specs.File.{opened_by, file_of, InBuffer, calendar_by};

use calendar::bounds::MAX_DATES;
use calendar::types::{Dates, Opened};

// What an attempt to open it tells: that it was opened; or else whether a link has its name, and whether it failed for want of such a file.
pub fn opened(readable: bool, link: bool, missing: bool) -> Opened
    ensures { result ≡ opened_by readable link missing }
{
    if readable {
        return Opened::Readable;
    }
    if link {
        return Opened::Unreadable;
    }
    if missing {
        return Opened::Missing;
    }
    Opened::Unreadable
}

// A calendar without dates.
pub fn without_dates() -> Dates
    ensures { result ≡ record { numbers = replicate max_dates 0; count = 0 } }
{
    Dates {
        numbers: [0; MAX_DATES],
        count: 0,
    }
}

// The calendar that was read into a buffer: how many bytes of the file stand at its front, or that a read failed.
pub fn of_contents(found: Option<usize>, buf: &[u8]) -> Option<Dates>
    requires { InBuffer (length buf.now) found }
    ensures { ReadAs result (calendar_by (file_of found buf.now)) }
{
    let Some(n) = found else {
        return None;
    };
    calendar_reader::read(&buf[..n])
}
