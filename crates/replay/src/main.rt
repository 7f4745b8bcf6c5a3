// Replays rows of events: standard input to standard output, in a loop that holds the book. The trading calendar is that of the file
// calendar.txt.
#![tactic(auto)]

ghost use Rattle.std.specs.Prelude.{◌≤◌, ◌<◌, ◌≡◌, length, take};
ghost use Rattle.calendar.specs.Days.{dates_of};
ghost use Rattle.calendar.specs.Text.{read_as, Few, Room};
ghost use Rattle.rows.specs.Cut.{kept_bytes};
ghost use Rattle.stream.specs.Input.{ending};
ghost use Rattle.stream.specs.Output.{output_room, waiting_room, Ready, TurnedBy, Turned, Replayed, RanBy, Ran};

use buffer_rows::pass;
use buffers::{fill, without_rows};
use calendar::types::Dates;
use row_step::pass_row;
use std::io::{Read, Write};
use std::rt::Files;
use stream::bounds::OUTPUT_ROOM;
use stream::types::{Input, Replay, Run, Waiting};

// The bytes of the buffer of input.
const INPUT_ROOM: usize = 65536;

// The end of the input: what it left without CRLF is a row.
fn last_row<W: Write>(output: &mut W, calendar: &[u64], buf: &[u8], out: &mut [u8], run: &mut Run)
    requires { (Ready run.old.replay out.old) × (run.old.have ≤ length buf.now) }
    ensures { TurnedBy (dates_of calendar.now) ending (take run.old.have buf.now) run.old.replay out.old run.new buf.now out.new }
{
    run.going = false;
    if run.have > 0 {
        pass_row(output, calendar, &buf[..run.have], out, &mut run.replay);
        run.have = 0;
    }
}

// One turn: what a read gives is gone through.
fn turn<R: Read, W: Write>(
    input: &mut R,
    output: &mut W,
    calendar: &[u64],
    buf: &mut [u8],
    out: &mut [u8],
    run: &mut Run,
)
    requires { (Ready run.old.replay out.old) × (run.old.have ≤ kept_bytes) × (kept_bytes < length buf.old) }
    ensures { Turned (dates_of calendar.now) run.old buf.old out.old run.new buf.new out.new }
{
    match fill(input, buf, run.have) {
        Input::UpTo(end) => pass(output, calendar, buf, out, run, end),
        Input::Ended => last_row(output, calendar, buf, out, run),
        Input::Failed => {
            run.have = 0;
            run.going = false;
        }
    }
}

// The header, and then the rows of the whole input, or those up to where the run breaks off.
fn replayed<R: Read, W: Write>(
    input: &mut R,
    output: &mut W,
    calendar: &[u64],
    buf: &mut [u8],
    out: &mut [u8],
) -> Waiting
    requires { (kept_bytes < length buf.old) × (output_room ≤ length out.old) }
    ensures { (result.at ≤ waiting_room) × Replayed (dates_of calendar.now) out.new result }
{
    let waiting = Waiting {
        at: lines::header(out, 0),
        intact: true,
    };
    let mut run = Run {
        replay: Replay {
            book: clearing::empty(),
            row: 0,
            waiting,
        },
        have: 0,
        going: true,
    };
    for _ in 0..u64::MAX {
        turn(input, output, calendar, buf, out, &mut run);
        if !run.going {
            break;
        }
    }
    run.replay.waiting
}

// Writes what waits in the output, where no write before it has failed.
fn finish<W: Write>(output: &mut W, out: &[u8], waiting: Waiting)
    requires { (waiting.at ≤ length out.now) × Ran out.now waiting }
{
    if waiting.intact {
        let _ = output.write_all(&out[..waiting.at]);
    }
}

fn with_input<R: Read, W: Write>(
    input: &mut R,
    output: &mut W,
    calendar: &[u64],
    out: &mut [u8],
) -> Waiting
    requires { output_room ≤ length out.old }
    ensures { (result.at ≤ waiting_room) × Replayed (dates_of calendar.now) out.new result }
{
    let mut space = [0; INPUT_ROOM];
    let buf: &mut [u8] = &mut space;
    replayed(input, output, calendar, buf, out)
}

// The rows are replayed with the calendar that was read; or none is, where it is refused.
fn run_by<R: Read, W: Write>(
    input: &mut R,
    output: &mut W,
    read: Option<Dates>,
    out: &mut [u8],
) -> Waiting
    requires { (Few read) × (Room read) × (output_room ≤ length out.old) }
    ensures { (result.at ≤ waiting_room) × RanBy (read_as read) out.new result }
{
    let Some(dates) = read else {
        return without_rows(out);
    };
    let numbers = dates.numbers;
    with_input(input, output, &numbers[..dates.count], out)
}

// The whole program, but for the writing of what waits at its end.
fn with_calendar<H: Files, R: Read, W: Write>(
    files: &H,
    input: &mut R,
    output: &mut W,
    out: &mut [u8],
) -> Waiting
    requires { output_room ≤ length out.old }
    ensures { (result.at ≤ waiting_room) × Ran out.new result }
{
    let read = calendar_file::load(files);
    run_by(input, output, read, out)
}

fn main(rt: HostRuntime) {
    let mut input = rt.stdin();
    let mut output = rt.stdout();
    let mut text = [0; OUTPUT_ROOM];
    let out: &mut [u8] = &mut text;
    let waiting = with_calendar(&rt, &mut input, &mut output, out);
    finish(&mut output, out, waiting);
}
