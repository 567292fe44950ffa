// The calls, each lent the lists that it uses, and for any other list a list of one word. Each prints its line.
use crate::show;
use call_funding::Funds;
use engine::calls::Call;
use market::answer::Outcome;
use market::book::{Book, Direction, Kind, Period, Route};
use market::engine::Engine;
use market::units::{Cents, Day};
use std::io;

// A fresh book: path 0 leads out to zone 2, path 1 in from zone 5.
pub fn fresh(paths: usize) -> Book {
    let mut routes = [Route {
        direction: Direction::Export,
        zone: 2,
    }; Engine::PATHS];
    routes[1] = Route {
        direction: Direction::Import,
        zone: 5,
    };
    Engine::fresh(routes, paths).book
}

// A call that is lent the register, and the lists that an open reads and a round reads and writes to.
fn lent(
    book: Book,
    words: &mut [u32],
    what: Call,
    quantities: &[u32],
    bids: &[u32],
    answers: &mut [u64],
    results: &mut [u64],
    scratch: &mut [u32],
) -> Outcome {
    let none = [0u32; 1];
    let prices = [0i64; 1];
    let mut amounts = [0u64; 1];
    engine::call(
        book,
        words,
        what,
        quantities,
        bids,
        &prices,
        &none,
        &none,
        &none,
        &none,
        &mut amounts,
        answers,
        results,
        scratch,
    )
}

// A call that is no round.
fn plain(book: Book, words: &mut [u32], what: Call, quantities: &[u32]) -> Outcome {
    let none = [0u32; 1];
    let mut answers = [0u64; 1];
    let mut results = [0u64; 1];
    let mut scratch = [0u32; 1];
    lent(
        book,
        words,
        what,
        quantities,
        &none,
        &mut answers,
        &mut results,
        &mut scratch,
    )
}

// A deposit: its line, and the outcome.
pub fn deposit(
    rt: &impl Print,
    book: Book,
    bidder: u32,
    to: Funds,
    amount: u64,
) -> io::Result<Outcome> {
    show::account_call(rt, b"deposit", bidder, to, amount)?;
    let what = Call::Deposit {
        bidder,
        to,
        amount: Cents(amount),
    };
    let mut words = [0u32; 1];
    show::answered(rt, plain(book, &mut words, what, &[0]))
}

// An auction opened with the quantities of its paths; the register is lent.
pub fn open(
    rt: &impl Print,
    book: Book,
    words: &mut [u32],
    kind: Kind,
    first: u32,
    last: u32,
    quantities: &[u32],
) -> io::Result<Outcome> {
    show::open_call(rt, kind, first, last)?;
    let period = Period {
        first: Day(first),
        last: Day(last),
    };
    let what = Call::Open { kind, period };
    show::answered(rt, plain(book, words, what, quantities))
}

// A round of a list of bids; the register and the round's own lists are lent.
pub fn round(
    rt: &impl Print,
    book: Book,
    words: &mut [u32],
    bids: &[u32],
    answers: &mut [u64],
    results: &mut [u64],
    scratch: &mut [u32],
) -> io::Result<Outcome> {
    print!(rt; "round {}", bids.len())?;
    let outcome = lent(
        book,
        words,
        Call::Round,
        &[0],
        bids,
        answers,
        results,
        scratch,
    );
    show::answered(rt, outcome)
}
