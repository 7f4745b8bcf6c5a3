// The rows of a buffer, and what it keeps of the row that it leaves unfinished.
#![tactic(auto)]

ghost use Rattle.std.specs.Prelude.{[], ◌≤◌, length, take};
ghost use Rattle.calendar.specs.Days.{dates_of};
ghost use Rattle.stream.specs.Input.{piece};
ghost use Rattle.stream.specs.Output.{Ready, TurnedBy};

use buffers::keep;
use rows_in_place::whole_rows;
use std::io::Write;
use stream::types::Run;

// The rows that end in the buffer, whose input goes up to a place: all of it as one piece.
pub fn pass<W: Write>(
    output: &mut W,
    calendar: &[u64],
    buf: &mut [u8],
    out: &mut [u8],
    run: &mut Run,
    end: usize,
)
    requires { (Ready run.old.replay out.old) × (end ≤ length buf.old) }
    ensures { TurnedBy (dates_of calendar.now) (piece (take end buf.old)) [] run.old.replay out.old run.new buf.new out.new }
{
    let start = whole_rows(output, calendar, &buf[..end], out, &mut run.replay);
    run.have = keep(buf, start, end);
    run.going = run.replay.waiting.intact;
}
