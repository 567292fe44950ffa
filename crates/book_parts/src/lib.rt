// A book's bidder, a book of which one part is another, and what calls ask of a part.
// Asked is that the stage is idle, that a period is one that open takes, that a bidder's value is 0.
#![tactic(auto)]

ghost use Rattle.std.specs.Prelude.{◌≡◌, ◌<◌};
ghost use Rattle.market.specs.Books.{bidder_of, with_bidder, with_account, with_entries, with_auction, no_value};
ghost use Rattle.market.specs.Limits.{bidder_limit};
ghost use Rattle.market.specs.Sound.{sound_period, is_idle};

use market::book::{Bidder, Book, Path, Period, Stage};
use market::engine::Engine;
use market::units::Balance;

// The bidder with a given number.
pub fn bidder(book: Book, number: u32) -> Bidder
    requires { number < bidder_limit }
    ensures { result ≡ bidder_of book number }
{
    book.bidders[number as usize]
}

// The book with the bidder at a number replaced.
pub fn with_bidder(book: Book, number: u32, bidder: Bidder) -> Book
    requires { number < bidder_limit }
    ensures { result ≡ with_bidder book number bidder }
{
    let mut next = book;
    next.bidders[number as usize] = bidder;
    next
}

// The book with its account replaced.
pub fn with_account(book: Book, account: Balance) -> Book
    ensures { result ≡ with_account book account.0 }
{
    Book { account, ..book }
}

// The book with its count of the register's entries replaced.
pub fn with_entries(book: Book, entries: usize) -> Book
    ensures { result ≡ with_entries book entries }
{
    Book { entries, ..book }
}

// The book with its paths and its stage replaced.
pub fn with_auction(book: Book, paths: [Path; Engine::PATHS], stage: Stage) -> Book
    ensures { result ≡ with_auction book paths stage }
{
    Book {
        paths,
        stage,
        ..book
    }
}

// Whether the stage is idle.
pub fn is_idle(stage: Stage) -> bool
    ensures { result ≡ is_idle stage }
{
    matches!(stage, Stage::Idle)
}

// Whether open takes a period.
pub fn sound_period(period: Period) -> bool
    ensures { result ≡ sound_period period }
{
    period.first <= period.last && period.last.0 <= Engine::DAY_LIMIT
}

// Whether a bidder's value is 0.
pub fn no_value(bidder: Bidder) -> bool
    ensures { result ≡ no_value bidder }
{
    bidder.applied.0 == 0 && bidder.owed.0 == 0
}
