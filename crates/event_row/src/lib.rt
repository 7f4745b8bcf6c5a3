// An event of a row: it is carried out or refused, and its lines are put at a place of the buffer. One function for each kind of step, and not one for
// all with the step handed over: each has other lines, and is read beside its rule.
#![tactic(auto)]

ghost use Rattle.std.specs.Prelude.{◌≡◌, false, ◌+◌, ◌≤◌, length};
ghost use Rattle.book.specs.Good.{Good};
ghost use Rattle.book.specs.declared.state.Event.TheVariants.{Intraday, Evening};
ghost use Rattle.report.specs.Report.{is_session, row_room};
ghost use Rattle.stream.specs.Parts.{EventPut};

use answers::is_session;
use book::state::Event;
use stream::types::Replay;

// An evening session, and all lines of its report.
fn evening_row(out: &mut [u8], replay: &mut Replay)
    requires { (Good replay.old.book) × (replay.old.waiting.at + row_room ≤ length out.old) }
    ensures { EventPut replay.old out.old Evening replay.new out.new }
{
    let step = sessions::evening(replay.book);
    replay.waiting.at = row_lines::report(
        out,
        replay.waiting.at,
        replay.row,
        replay.book.series,
        step,
    );
    replay.book = step.book;
}

// An intraday session, the line of its answer and the money of all accounts: no futures arise in it.
fn intraday_row(out: &mut [u8], replay: &mut Replay)
    requires { (Good replay.old.book) × (replay.old.waiting.at + row_room ≤ length out.old) }
    ensures { EventPut replay.old out.old Intraday replay.new out.new }
{
    let step = sessions::intraday(replay.book);
    let next = row_lines::answered(out, replay.waiting.at, replay.row, step.answer);
    replay.waiting.at = row_lines::money(out, next, replay.row, step.money);
    replay.book = step.book;
}

// An event that is no session: its step, and the line of its answer alone.
fn quiet_row(out: &mut [u8], replay: &mut Replay, event: Event)
    requires { (Good replay.old.book) × (replay.old.waiting.at + row_room ≤ length out.old) × (is_session event ≡ false) }
    ensures { EventPut replay.old out.old event replay.new out.new }
{
    let step = clearing::step(replay.book, event);
    replay.waiting.at = row_lines::answered(out, replay.waiting.at, replay.row, step.answer);
    replay.book = step.book;
}

// An event: its step, and its lines, behind what waits.
pub fn event_row(out: &mut [u8], replay: &mut Replay, event: Event)
    requires { (Good replay.old.book) × (replay.old.waiting.at + row_room ≤ length out.old) }
    ensures { EventPut replay.old out.old event replay.new out.new }
{
    if is_session(event) {
        if let Event::Evening = event {
            return evening_row(out, replay);
        }
        return intraday_row(out, replay);
    }
    quiet_row(out, replay, event)
}
