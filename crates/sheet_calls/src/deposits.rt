// The deposits of a sheet's bidders, in the order of the sheet.
ghost use Rattle.std.specs.Prelude.{◌≡◌, true, map, ◌<◌, take};
ghost use Rattle.market.specs.Books.{every};
ghost use Rattle.market.specs.Limits.{bidder_limit};
ghost use Rattle.sheet_calls.specs.Calls as rules;
ghost use Rattle.sheet_calls.specs.CallSlots.{is_listed};

use call_funding::{BidderDeposits, DepositList};
use market::answer::Outcome;
use market::book::Book;
use market::engine::Engine;
use market::units::Cents;
use sheet_form::rows::{BidderLine, BidderRows};

// What a line asks for.
fn deposits_of(line: BidderLine) -> BidderDeposits
    requires { line.bidder < bidder_limit }
    ensures { result ≡ rules.deposits_of line }
{
    BidderDeposits {
        bidder: line.bidder as u32,
        cash: Cents(line.cash),
        letter: Cents(line.letter),
    }
}

// What the lines of all slots ask for.
fn all_deposits(lines: [BidderLine; Engine::BIDDERS]) -> [BidderDeposits; Engine::BIDDERS]
    requires { every is_listed lines ≡ true }
    ensures { result ≡ map rules.deposits_of lines }
{
    let none = BidderDeposits {
        bidder: 0,
        cash: Cents(0),
        letter: Cents(0),
    };
    let mut bidders = [none; Engine::BIDDERS];
    for i in 0..Engine::BIDDERS {
        let asked = deposits_of(lines[i]);
        bidders[i] = asked;
    }
    bidders
}

// The deposits of the bidders listed; the first refusal ends them.
pub fn deposits(book: Book, rows: BidderRows) -> Outcome
    requires { every is_listed rows.lines ≡ true }
    ensures { result ≡ rules.deposits book (take rows.count rows.lines) }
{
    let lines = rows.lines;
    let list = DepositList {
        count: rows.count,
        bidders: all_deposits(lines),
    };
    call_funding::deposit_all(book, list)
}
