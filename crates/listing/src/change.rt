// The series that a listing begins.
ghost use Rattle.std.specs.Prelude.{◌≡◌};
ghost use Rattle.series.specs.Series.{new_series};

use marking::change::no_mark;
use places::PLACES;
use series::state::{Listing, Series};

// A series as it is listed.
pub fn new_series(listing: Listing) -> Series
    ensures { result ≡ new_series listing }
{
    Series {
        listing,
        mark: no_mark(),
        evening_price: 0,
        open_interest: 0,
        positions: [0i32; PLACES],
        opening: [0i32; PLACES],
        requests: [0u32; PLACES],
        declined: [false; PLACES],
        futures: [0i32; PLACES],
    }
}
