// The cases of payout. A line has the case, the refusal's number (0 where the call is answered), the account afterwards, the
// amounts of bidders 0 to 3, and the two words past the 32 amounts, which stay 9.
use case_tools::report;
use market::book::{Book, Direction, Entry, Period, Route};
use market::engine::Engine;
use market::units::{Balance, Day, Megawatts};
use std::io;

const WORDS: usize = Engine::REGISTER_WORDS;

// A book with an export path to zone 2, an import path from zone 2 and an export path to zone 15.
fn book_with(account: i64, entries: usize) -> Book {
    let mut routes = [Route {
        direction: Direction::Export,
        zone: 2,
    }; Engine::PATHS];
    routes[1] = Route {
        direction: Direction::Import,
        zone: 2,
    };
    routes[2] = Route {
        direction: Direction::Export,
        zone: 15,
    };
    Book {
        account: Balance(account),
        entries,
        ..Engine::fresh(routes, 3).book
    }
}

fn entry(bidder: u32, path: u32, megawatts: u32, state: u32) -> Entry {
    Entry {
        bidder,
        path,
        quantity: Megawatts(megawatts),
        period: Period {
            first: Day(100),
            last: Day(130),
        },
        state,
    }
}

// Bidder 0 has 100 MW out, 1 has 100 MW in, 2 has 7 MW out to zone 15 twice, and 3 a pending right.
fn entries() -> [u32; WORDS] {
    let mut words = [7u32; WORDS];
    register::append(&mut words, 0, entry(0, 0, 100, Engine::ISSUED));
    register::append(&mut words, 1, entry(1, 1, 100, Engine::ISSUED));
    register::append(&mut words, 2, entry(2, 2, 7, Engine::ISSUED));
    register::append(&mut words, 3, entry(2, 2, 7, Engine::ISSUED));
    register::append(&mut words, 4, entry(3, 0, 50, Engine::PENDING));
    words
}

// One hour: the account before, the day, failed or not, the price at every zone, and at zone 15.
fn hour(
    rt: &impl Print,
    account: i64,
    day: u32,
    failed: bool,
    price: i64,
    last: i64,
) -> io::Result<()> {
    print!(rt; "payout {day}")?;
    report::signed(rt, Balance(price))?;
    report::signed(rt, Balance(last))?;
    if failed {
        print!(rt; " failed")?;
    }
    print!(rt; ":")?;
    let words = entries();
    let mut prices = [price; 16];
    prices[15] = last;
    let mut amounts = [9u64; 34];
    let outcome = call_payout::payout(
        book_with(account, 5),
        &words,
        Day(day),
        failed,
        &prices,
        &mut amounts,
    );
    report::answer(rt, outcome)?;
    report::signed(rt, outcome.book.account)?;
    report::numbers(rt, &amounts[..4])?;
    print!(rt; " past")?;
    report::numbers(rt, &amounts[32..])?;
    report::line(rt)
}

fn workbook(rt: &impl Print) -> io::Result<()> {
    hour(rt, 0, 110, false, 1_000, 0)?;
    hour(rt, 0, 110, false, -1_500, 0)?;
    hour(rt, 0, 110, false, -500, 0)?;
    hour(rt, 0, 110, false, 0, 3)?;
    hour(rt, 0, 110, true, 1_000, 1_000)?;
    hour(rt, 0, 110, true, 1_000_001, 1_000_001)
}

fn days(rt: &impl Print) -> io::Result<()> {
    hour(rt, 0, 99, false, 1_000, 0)?;
    hour(rt, 0, 100, false, 1_000, 0)?;
    hour(rt, 0, 130, false, 1_000, 0)?;
    hour(rt, 0, 131, false, 1_000, 0)?;
    hour(rt, 0, 65_535, false, 1_000, 0)?;
    hour(rt, 0, 65_536, false, 1_000_001, 0)
}

fn limits(rt: &impl Print) -> io::Result<()> {
    hour(rt, 0, 110, false, 1_000_000, 1_000_000)?;
    hour(rt, 0, 110, false, -1_000_000, -1_000_000)?;
    hour(rt, 0, 110, false, 0, 1_000_001)?;
    hour(rt, 0, 110, false, 0, -1_000_001)?;
    hour(rt, Engine::ACCOUNT_FLOOR + 100_000, 110, false, 1_000, 0)?;
    hour(rt, Engine::ACCOUNT_FLOOR + 99_999, 110, false, 1_000, 0)?;
    hour(rt, Engine::ACCOUNT_FLOOR - 1, 110, false, 1_000, 0)
}

// A payout that is lent these lists: its answer.
fn ask(
    rt: &impl Print,
    name: &str,
    words: &[u32],
    failed: bool,
    prices: &[i64],
    amounts: &mut [u64],
) -> io::Result<()> {
    print!(rt; "{name}:")?;
    let outcome = call_payout::payout(book_with(0, 0), words, Day(0), failed, prices, amounts);
    report::answer(rt, outcome)?;
    report::line(rt)
}

// Each list in turn is a word too short.
fn short_lists(rt: &impl Print) -> io::Result<()> {
    let words = entries();
    let short = [7; WORDS - 1];
    let prices = [0; 16];
    let mut amounts = [9; 34];
    let mut few = [9; 31];
    ask(rt, "short register", &short, false, &prices, &mut amounts)?;
    ask(
        rt,
        "short prices, failed",
        &words,
        true,
        &prices[1..],
        &mut amounts,
    )?;
    ask(rt, "short amounts", &words, false, &prices, &mut few)
}

pub fn cases(rt: &impl Print) -> io::Result<()> {
    workbook(rt)?;
    days(rt)?;
    limits(rt)?;
    short_lists(rt)
}
