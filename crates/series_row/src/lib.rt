// The next row of a buffer, where it is an event on one series.
#![tactic(auto)]

ghost use Rattle.std.specs.Prelude.{◌≡◌};
ghost use Rattle.calendar.specs.Days.{dates_of};
ghost use Rattle.stream.specs.Rows.{series_row_at};

use stream::types::SeriesRow;
use terms::bounds::SERIES;

// The row that starts at a place of a buffer and ends at the next CRLF.
pub fn series_row(calendar: &[u64], input: &[u8], from: usize) -> Option<SeriesRow>
    ensures { result ≡ series_row_at (dates_of calendar.now) input.now from }
{
    let Some(end) = row_cut::row_end(input, from) else {
        return None;
    };
    let Ok(event) = row_reader::read_row(calendar, &input[from..end]) else {
        return None;
    };
    let series = effect::series_of(event);
    if SERIES <= series {
        return None;
    }
    Some(SeriesRow {
        series,
        event,
        next: end + 2,
    })
}
