// The number of a row that is refused before it reaches the book. No conversion by From: the refusals stand in crates of rules, which have no impl.
ghost use Rattle.std.specs.Prelude.{◌≡◌};
ghost use Rattle.contract.specs.Code as code;
ghost use Rattle.rows.specs.Row as row;

use rows::types::Refusal;
use terms::refusals;

fn of_code(why: contract::types::Refusal) -> u64
    ensures { result ≡ code.number why }
{
    match why {
        contract::types::Refusal::Layout => refusals::CODE,
        contract::types::Refusal::NoDate => refusals::DATE,
        contract::types::Refusal::StrikeText => refusals::STRIKE_TEXT,
    }
}

// The number of a row that is refused before it reaches the book.
pub fn of_row(why: Refusal) -> u64
    ensures { result ≡ row.number why }
{
    match why {
        Refusal::Row => refusals::ROW,
        Refusal::Code(c) => of_code(c),
        Refusal::NoTradingDate => refusals::NO_TRADING_DATE,
    }
}
