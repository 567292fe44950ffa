// The boundary cases of a fresh book, deposit, withdraw and rent. A line has the case, the refusal's number (0 where the call
// is answered), and what the book then holds.
use call_funding::Funds;
use case_tools::{report, show};
use market::answer::Outcome;
use market::book::{Bidder, Book, Direction, Route};
use market::engine::Engine;
use market::units::{Balance, Cents};
use std::io;

const LIMIT: u64 = Engine::MONEY_LIMIT;

const LARGEST: u64 = 18_446_744_073_709_551_615;

fn routes(zone: u32) -> [Route; Engine::PATHS] {
    [Route {
        direction: Direction::Export,
        zone,
    }; Engine::PATHS]
}

fn fresh_book() -> Book {
    Engine::fresh(routes(15), 2).book
}

// A case of a fresh book: how many paths, to which zone.
fn fresh_case(rt: &impl Print, zone: u32, count: usize) -> io::Result<()> {
    print!(rt; "fresh {zone} {count}:")?;
    let made = Engine::fresh(routes(zone), count);
    report::answer(rt, made)?;
    let sound = if book_sound::sound_book(made.book) {
        "sound"
    } else {
        "unsound"
    };
    println!(rt; " {sound}")
}

fn fresh_cases(rt: &impl Print) -> io::Result<()> {
    fresh_case(rt, 15, 0)?;
    fresh_case(rt, 15, 1)?;
    fresh_case(rt, 15, 16)?;
    fresh_case(rt, 15, 17)?;
    fresh_case(rt, 16, 1)?;
    fresh_case(rt, 4_294_967_295, 16)
}

// The book with its bidder 3 as given.
fn book_with(bidder: Bidder) -> Book {
    let mut book = fresh_book();
    book.bidders[3] = bidder;
    book
}

fn bidder_with(cash: u64, applied: u64, letter: u64, hold: u64) -> Bidder {
    Bidder {
        cash: Cents(cash),
        applied: Cents(applied),
        letter: Cents(letter),
        hold: Cents(hold),
        owed: Cents(0),
        step: 0,
    }
}

// The answer, and bidder 3 as the book then has it.
fn show_three(rt: &impl Print, outcome: Outcome) -> io::Result<()> {
    print!(rt; ":")?;
    report::answer(rt, outcome)?;
    report::bidder(rt, outcome.book.bidders[3])?;
    report::line(rt)
}

fn deposit_case(rt: &impl Print, book: Book, to: Funds, amount: u64) -> io::Result<()> {
    print!(rt; "deposit {} {amount}", show::funds(to))?;
    show_three(rt, call_funding::deposit(book, 3, to, Cents(amount)))
}

fn deposit_cases(rt: &impl Print) -> io::Result<()> {
    let book = book_with(bidder_with(0, 0, 0, 0));
    deposit_case(rt, book, Funds::Cash, 0)?;
    deposit_case(rt, book, Funds::Cash, 1)?;
    deposit_case(rt, book, Funds::Cash, LIMIT)?;
    deposit_case(rt, book, Funds::Cash, LIMIT + 1)?;
    deposit_case(rt, book, Funds::Cash, LARGEST)?;
    deposit_case(rt, book, Funds::Letter, LIMIT)?;
    deposit_case(rt, book, Funds::Letter, LIMIT + 1)?;
    deposit_case(rt, book, Funds::Letter, LARGEST)
}

// Applied cash counts towards the limit; a letter does not.
fn deposit_beside_applied(rt: &impl Print) -> io::Result<()> {
    let book = book_with(bidder_with(100, 900, 5000, 10));
    deposit_case(rt, book, Funds::Cash, LIMIT - 1000)?;
    deposit_case(rt, book, Funds::Cash, LIMIT - 999)?;
    deposit_case(rt, book, Funds::Letter, LIMIT - 5000)?;
    deposit_case(rt, book, Funds::Letter, LIMIT - 4999)
}

fn withdraw_case(rt: &impl Print, book: Book, from: Funds, amount: u64) -> io::Result<()> {
    print!(rt; "withdraw {} {amount}", show::funds(from))?;
    show_three(rt, call_funding::withdraw(book, 3, from, Cents(amount)))
}

// Applied cash cannot be withdrawn, and neither can what is held of the letter.
fn withdraw_cases(rt: &impl Print) -> io::Result<()> {
    let book = book_with(bidder_with(100, 900, 5000, 10));
    withdraw_case(rt, book, Funds::Cash, 0)?;
    withdraw_case(rt, book, Funds::Cash, 1)?;
    withdraw_case(rt, book, Funds::Cash, 100)?;
    withdraw_case(rt, book, Funds::Cash, 101)?;
    withdraw_case(rt, book, Funds::Cash, LARGEST)?;
    withdraw_case(rt, book, Funds::Letter, 4990)?;
    withdraw_case(rt, book, Funds::Letter, 4991)?;
    withdraw_case(rt, book, Funds::Letter, LARGEST)
}

// The order of refusals: an unsound book (2) before the bidder's number (10) before the amount (11).
fn order_case(rt: &impl Print, bidder: u32, hold: u64, amount: u64) -> io::Result<()> {
    let book = book_with(bidder_with(100, 0, 50, hold));
    print!(rt; "order {bidder} {hold} {amount}: deposit")?;
    report::answer(
        rt,
        call_funding::deposit(book, bidder, Funds::Cash, Cents(amount)),
    )?;
    print!(rt; " withdraw")?;
    report::answer(
        rt,
        call_funding::withdraw(book, bidder, Funds::Cash, Cents(amount)),
    )?;
    report::line(rt)
}

fn order_cases(rt: &impl Print) -> io::Result<()> {
    order_case(rt, 31, 50, 1)?;
    order_case(rt, 31, 50, 0)?;
    order_case(rt, 32, 50, 1)?;
    order_case(rt, 32, 50, 0)?;
    order_case(rt, 32, 51, 0)?;
    order_case(rt, 4_294_967_295, 50, 1)
}

// Rent into an account, and what the account then holds.
fn rent_case(rt: &impl Print, account: i64, amount: u64) -> io::Result<()> {
    let account = Balance(account);
    print!(rt; "rent")?;
    report::signed(rt, account)?;
    print!(rt; " {amount}:")?;
    let outcome = call_rent::rent(
        Book {
            account,
            ..fresh_book()
        },
        Cents(amount),
    );
    report::answer(rt, outcome)?;
    report::signed(rt, outcome.book.account)?;
    report::line(rt)
}

fn rent_cases(rt: &impl Print) -> io::Result<()> {
    rent_case(rt, 0, 0)?;
    rent_case(rt, 0, 1)?;
    rent_case(rt, 0, LIMIT)?;
    rent_case(rt, 0, LIMIT + 1)?;
    rent_case(rt, 0, LARGEST)?;
    rent_case(rt, Engine::ACCOUNT_FLOOR, LIMIT)?;
    rent_case(rt, Engine::ACCOUNT_FLOOR - 1, LIMIT)
}

fn rent_at_limit(rt: &impl Print) -> io::Result<()> {
    rent_case(rt, Engine::ACCOUNT_LIMIT - 1, 1)?;
    rent_case(rt, Engine::ACCOUNT_LIMIT - 1, 2)?;
    rent_case(rt, Engine::ACCOUNT_LIMIT, 1)?;
    rent_case(rt, Engine::ACCOUNT_LIMIT + 1, 1)
}

pub fn cases(rt: &impl Print) -> io::Result<()> {
    fresh_cases(rt)?;
    deposit_cases(rt)?;
    deposit_beside_applied(rt)?;
    withdraw_cases(rt)?;
    order_cases(rt)?;
    rent_cases(rt)?;
    rent_at_limit(rt)
}
