// What a session asks of the marks: the lowest live series that lacks one.
#![tactic(auto)]

ghost use Rattle.std.specs.Prelude.{◌≡◌, ◌<◌};
ghost use Rattle.book.specs.Good.{Good};
ghost use Rattle.book.specs.Verdicts.{first_unmarked};

use book::state::Book;

// The lowest live series without a mark. Asked for as a loop that yields the first unmarked one by `break`.
pub fn first_unmarked(book: Book) -> Option<u8>
    requires { Good book }
    ensures { result ≡ first_unmarked book }
{
    let mut i: usize = 0;
    let found = loop {
        if book.listed <= i {
            break None;
        }
        let s = book.series[i];
        if book.day <= s.listing.last_day {
            if !s.mark.made {
                break Some(i as u8);
            }
        }
        i += 1;
    };
    found
}
