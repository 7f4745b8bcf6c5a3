// One row: its event is carried out or refused, and its lines are put behind what waits.
#![tactic(auto)]

ghost use Rattle.std.specs.Prelude.{◌+◌, ◌≤◌, length};
ghost use Rattle.book.specs.Good.{Good};
ghost use Rattle.report.specs.Report.{row_room};
ghost use Rattle.calendar.specs.Days.{dates_of};
ghost use Rattle.rows.specs.Row.{row_of};
ghost use Rattle.stream.specs.Output.{Ready};
ghost use Rattle.stream.specs.Parts.{RowPut, RowPassed};

use event_row::event_row;
use std::io::Write;
use stream::types::Replay;

// A row: its event is carried out or refused, and its lines are put behind what waits.
fn answer_row(calendar: &[u64], bytes: &[u8], out: &mut [u8], replay: &mut Replay)
    requires { (Good replay.old.book) × (replay.old.waiting.at + row_room ≤ length out.old) }
    ensures { RowPut replay.old out.old (row_of (dates_of calendar.now) bytes.now) replay.new out.new }
{
    replay.row = replay.row.wrapping_add(1);
    match row_reader::read_row(calendar, bytes) {
        Err(why) => {
            replay.waiting.at = lines::answer(
                out,
                replay.waiting.at,
                replay.row,
                None,
                None,
                answers::number::of_row(why),
            );
        }
        Ok(event) => event_row(out, replay, event),
    }
}

// The next row: it is answered, and where what waits then leaves no room for the lines of one more row it is let go.
pub fn pass_row<W: Write>(
    output: &mut W,
    calendar: &[u64],
    bytes: &[u8],
    out: &mut [u8],
    replay: &mut Replay,
)
    requires { Ready replay.old out.old }
    ensures { RowPassed replay.old out.old (row_of (dates_of calendar.now) bytes.now) replay.new out.new }
{
    answer_row(calendar, bytes, out, replay);
    buffers::flush(output, out, &mut replay.waiting);
}
