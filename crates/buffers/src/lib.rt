// The buffers of a replay: input that is read and kept, output that waits, and the replay up to a place of its input.
#![tactic(auto)]

ghost use Rattle.std.specs.Prelude.{◌≤◌, ◌<◌, ◌+◌, ◌≡◌, ◌++◌, length, take, drop, true};
ghost use Rattle.report.specs.Report.{answer_of, no_calendar};
ghost use Rattle.rows.specs.Cut.{kept_bytes, kept};
ghost use Rattle.stream.specs.Input.{InRoom};
ghost use Rattle.stream.specs.Output.{output_room, waiting_room};
ghost use Rattle.stream.specs.Parts.{Flushed};

use book::state::Answer;
use std::io::{Read, Write};
use stream::bounds::WAITING_ROOM;
use stream::types::{Input, Waiting};

// Reads of a file behind what is kept, where there is room: a read of no bytes is the file's end.
pub fn fill<R: Read>(input: &mut R, buf: &mut [u8], have: usize) -> Input
    requires { have < length buf.old }
    ensures { (InRoom have (length buf.old) result) × (take have buf.new ≡ take have buf.old) }
{
    let Ok(n) = input.read(&mut buf[have..]) else {
        return Input::Failed;
    };
    if n == 0 {
        return Input::Ended;
    }
    Input::UpTo(have + n)
}

// Keeps what stands between two places of the buffer, at its front.
pub fn keep(buf: &mut [u8], from: usize, end: usize) -> usize
    requires { end ≤ length buf.old }
    ensures { (result ≤ length buf.old) × (result ≤ kept_bytes) × (take result buf.new ≡ kept (drop from (take end buf.old))) }
{
    let start = row_cut::kept_from(from, end);
    row_cut::move_down(&mut buf[..end], start)
}

// Room for the lines of one more row: where there is none, what waits is let go. It is written, unless a write has failed before.
pub fn flush<W: Write>(output: &mut W, out: &mut [u8], waiting: &mut Waiting)
    requires { waiting.old.at ≤ length out.old }
    ensures { Flushed (take waiting.old.at out.old) waiting.old.intact waiting.new out.new }
{
    let end = waiting.at;
    if end <= WAITING_ROOM {
        return;
    }
    waiting.at = 0;
    if waiting.intact {
        waiting.intact = output.write_all(&out[..end]).is_ok();
    }
}

// The line of an answer behind what waits.
pub fn put_answer<W: Write>(
    output: &mut W,
    out: &mut [u8],
    waiting: &mut Waiting,
    row: u64,
    answer: Answer,
)
    requires { (waiting.old.at ≤ waiting_room) × (output_room ≤ length out.old) }
    ensures { Flushed (take waiting.old.at out.old ++ answer_of row answer) waiting.old.intact waiting.new out.new }
{
    waiting.at = row_lines::answered(out, waiting.at, row, answer);
    flush(output, out, waiting);
}

// Where the calendar is refused, that stands in place of all rows.
pub fn without_rows(out: &mut [u8]) -> Waiting
    requires { output_room ≤ length out.old }
    ensures { (result.at ≤ waiting_room) × (take result.at out.new ≡ no_calendar) × (result.intact ≡ true) }
{
    Waiting {
        at: lines::no_calendar(out),
        intact: true,
    }
}
