// The rows of a buffer: events on one series are carried out in the book where it stands.
#![tactic(auto)]

ghost use Rattle.calendar.specs.Days.{dates_of};
ghost use Rattle.stream.specs.Output.{Ready};
ghost use Rattle.stream.specs.Parts.{AllPassed};

use book::state::Effect;
use buffers::put_answer;
use positions_apart::{put_back, taken_out};
use row_step::pass_row;
use std::io::Write;
use stream::types::{Replay, SeriesRow};
use today::today_of;

// The rows of a buffer that end in it; returns where the unfinished one starts. The book stays where it is for all of them: an event on one
// series changes that series of it, and the blotter. The positions and their open interest stand apart meanwhile, so that a trade, which
// changes nothing else of a series, does not copy the rest of it. For any other row they are put back, and taken out of the book after it.
pub fn whole_rows<W: Write>(
    output: &mut W,
    calendar: &[u64],
    input: &[u8],
    out: &mut [u8],
    replay: &mut Replay,
) -> usize
    requires { Ready replay.old out.old }
    ensures { AllPassed (dates_of calendar.now) input.now replay.old out.old replay.new out.new result }
{
    let mut held = taken_out(replay.book.series);
    let mut from = 0;
    // no count: a turn goes on where the row before it ended
    loop {
        let Some(
            SeriesRow {
                series,
                event,
                next,
            },
        ) = series_row::series_row(calendar, input, from)
        else {
            replay.book.series = put_back(replay.book.series, held);
            let Some(end) = row_cut::row_end(input, from) else {
                return from;
            };
            pass_row(output, calendar, &input[from..end], out, replay);
            held = taken_out(replay.book.series);
            from = end + 2;
            continue;
        };
        let today = today_of(&replay.book);
        let effect = effect::effect(
            today,
            replay.book.series[series].listing,
            &held[series].positions,
            event,
        );
        let h = &mut held[series];
        h.open_interest = apply::interest(h.open_interest, &h.positions, effect);
        apply::move_positions(&mut h.positions, effect);
        let n = recording::next_record(replay.book.trades);
        replay.book.blotter[n] = recording::entry(replay.book.blotter[n], effect);
        replay.book.trades = recording::counted(replay.book.trades, effect);
        replay.row = replay.row.wrapping_add(1);
        put_answer(
            output,
            out,
            &mut replay.waiting,
            replay.row,
            recording::answer(effect),
        );
        from = next;
        if let Effect::Traded(_) = effect {
            continue;
        }
        let s = &mut replay.book.series[series];
        apply::set_request(&mut s.requests, effect);
        apply::set_decline(&mut s.declined, effect);
        s.mark = apply::mark(s.mark, effect);
    }
}
