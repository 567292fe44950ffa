// The cases of pay, default and retire. A line has the case, the refusal's number (0 where the call is answered), and what the
// book or the register then holds. The register's words are 7 wherever nothing was written, so that a stray write shows.
ghost use Rattle.std.specs.Prelude.{◌<◌};

use case_tools::report;
use market::answer::{Answer, Outcome};
use market::book::{Bidder, Book, Direction, Entry, Kind, Period, Route, Stage};
use market::engine::Engine;
use market::units::{Cents, Day, Megawatts};
use std::io;

const WORDS: usize = Engine::REGISTER_WORDS;

const BLANK: u32 = 7;

fn entry(bidder: u32, megawatts: u32, last: u32, state: u32) -> Entry {
    Entry {
        bidder,
        path: 0,
        quantity: Megawatts(megawatts),
        period: Period {
            first: Day(9_191),
            last: Day(last),
        },
        state,
    }
}

fn bidder(cash: u64, applied: u64, letter: u64, hold: u64, owed: u64) -> Bidder {
    Bidder {
        cash: Cents(cash),
        applied: Cents(applied),
        letter: Cents(letter),
        hold: Cents(hold),
        owed: Cents(owed),
        step: 0,
    }
}

// The book after the starred sheet of `promise_cases`: bidders 3 and 7 have won, and the register counts `entries`.
fn book_of_sheet(entries: usize) -> Book {
    let routes = [Route {
        direction: Direction::Export,
        zone: 2,
    }; Engine::PATHS];
    let mut book = Engine::fresh(routes, 1).book;
    book.bidders[3] = bidder(0, 100_000, 0, 0, 650_000);
    book.bidders[7] = bidder(0, 0, 1_000_000, 15_000, 150_000);
    book.entries = entries;
    book
}

fn show_answer(rt: &impl Print, outcome: Outcome) -> io::Result<()> {
    print!(rt; ":")?;
    report::answer(rt, outcome)?;
    if let Ok(Answer::Drawn(draw)) = outcome.answer {
        print!(rt; " draw {}", draw.0)?;
    }
    Ok(())
}

// The answer, the account, a bidder, the register's count and its first words, and how many words past them are not blank.
fn show(
    rt: &impl Print,
    outcome: Outcome,
    number: usize,
    first: &[u32],
    past: &[u32],
) -> io::Result<()>
    requires { number < 32 }
{
    let book = outcome.book;
    show_answer(rt, outcome)?;
    print!(rt; " account")?;
    report::signed(rt, book.account)?;
    print!(rt; " bidder")?;
    report::bidder(rt, book.bidders[number])?;
    print!(rt; " entries {} words", book.entries)?;
    report::numbers(rt, first)?;
    let strays = past.iter().filter(|word| **word != BLANK).count();
    println!(rt; " past {strays}")
}

// A register with the two entries of the sheet, pending.
fn two_entries() -> [u32; WORDS] {
    let mut words = [BLANK; WORDS];
    register::append(&mut words, 0, entry(3, 50, 9_221, Engine::PENDING));
    register::append(&mut words, 1, entry(7, 10, 9_221, Engine::PENDING));
    words
}

// A register with a pending entry between two that are issued.
fn three_entries() -> [u32; WORDS] {
    let mut words = [BLANK; WORDS];
    register::append(&mut words, 0, entry(1, 5, 9_200, Engine::ISSUED));
    register::append(&mut words, 1, entry(2, 6, 9_200, Engine::PENDING));
    register::append(&mut words, 2, entry(3, 7, 9_201, Engine::ISSUED));
    words
}

// A bidder of the sheet defaults.
fn default_of_sheet(rt: &impl Print, bidder: u32) -> io::Result<()>
    requires { bidder < 32 }
{
    let mut words = two_entries();
    print!(rt; "bidder {bidder} defaults")?;
    let outcome = call_default::default(book_of_sheet(2), &mut words, bidder);
    show(rt, outcome, bidder as usize, &words[..12], &words[12..])
}

fn pay_three(rt: &impl Print, amount: u64) -> io::Result<()> {
    let mut words = two_entries();
    print!(rt; "bidder 3 pays {amount}")?;
    let outcome = call_pay::pay(book_of_sheet(2), &mut words, 3, Cents(amount));
    show(rt, outcome, 3, &words[..12], &words[12..])
}

// The book with bidder 5 as given, for a register with no entries.
fn book_of_five(given: Bidder) -> Book {
    book_parts::with_bidder(book_of_sheet(0), 5, given)
}

fn pay_five(rt: &impl Print, payer: Bidder, amount: u64) -> io::Result<()> {
    let mut words = [BLANK; WORDS];
    print!(rt; "bidder 5 pays {amount}")?;
    let outcome = call_pay::pay(book_of_five(payer), &mut words, 5, Cents(amount));
    show(rt, outcome, 5, &words[..0], &words)
}

fn default_five(rt: &impl Print, debtor: Bidder) -> io::Result<()> {
    let mut words = [BLANK; WORDS];
    print!(rt; "bidder 5 defaults")?;
    let outcome = call_default::default(book_of_five(debtor), &mut words, 5);
    show(rt, outcome, 5, &words[..0], &words)
}

fn amounts(rt: &impl Print) -> io::Result<()> {
    pay_five(rt, bidder(40, 500, 0, 0, 0), 0)?;
    pay_five(rt, bidder(40, 500, 0, 0, 0), 500)?;
    pay_five(rt, bidder(40, 0, 0, 0, 0), 0)?;
    pay_five(rt, bidder(40, 0, 0, 0, 0), 1)?;
    default_five(rt, bidder(40, 500, 0, 0, 0))?;
    default_five(rt, bidder(0, 0, 50, 50, 1_000))?;
    default_five(rt, bidder(30, 0, 200, 100, 1_009))?;
    default_five(rt, bidder(1_000, 2_000, 5, 5, 10_000))
}

// The step goes up with a default and down with a payment (rules 8.2 and 8.7).
fn step_case(rt: &impl Print, step: u32) -> io::Result<()> {
    let debtor = Bidder {
        step,
        ..bidder(10_000, 0, 0, 0, 10)
    };
    let mut words = [BLANK; WORDS];
    let defaulted = call_default::default(book_of_five(debtor), &mut words, 5);
    let mut others = [BLANK; WORDS];
    let paid = call_pay::pay(book_of_five(debtor), &mut others, 5, Cents(10));
    println!(rt;
        "step {step} {} {}",
        defaulted.book.bidders[5].step, paid.book.bidders[5].step
    )
}

// Pay, default and retire over a book and a register.
fn ask_all(rt: &impl Print, book: Book, words: &mut [u32]) -> io::Result<()> {
    show_answer(rt, call_pay::pay(book, words, 3, Cents(650_000)))?;
    show_answer(rt, call_default::default(book, words, 3))?;
    show_answer(rt, call_retire::retire(book, words, Day(0)))?;
    report::line(rt)
}

fn short_register(rt: &impl Print) -> io::Result<()> {
    let mut words = [BLANK; WORDS - 1];
    print!(rt; "6,143 words")?;
    ask_all(rt, book_of_sheet(0), &mut words)
}

// A payment over the two entries of the sheet where the book counts `entries`.
fn ask_counted(rt: &impl Print, entries: usize, bidder: u32, amount: u64) -> io::Result<()> {
    let mut words = two_entries();
    show_answer(
        rt,
        call_pay::pay(book_of_sheet(entries), &mut words, bidder, Cents(amount)),
    )
}

fn refusals(rt: &impl Print) -> io::Result<()> {
    print!(rt; "three counted, 1,025 counted, bidder 32, day 65,536")?;
    ask_counted(rt, 3, 3, 650_000)?;
    ask_counted(rt, 1_025, 3, 650_000)?;
    ask_counted(rt, 2, 32, 0)?;
    let mut words = two_entries();
    show_answer(
        rt,
        call_retire::retire(book_of_sheet(2), &mut words, Day(65_536)),
    )?;
    report::line(rt)
}

// An open stage: pay and default are refused, retire is not.
fn open_stage(rt: &impl Print) -> io::Result<()> {
    let mut words = [BLANK; WORDS];
    let stage = Stage::Open {
        kind: Kind::Long,
        round: 2,
        period: Period {
            first: Day(0),
            last: Day(0),
        },
    };
    print!(rt; "open stage")?;
    ask_all(
        rt,
        Book {
            stage,
            ..book_of_sheet(0)
        },
        &mut words,
    )
}

fn retire_case(rt: &impl Print, day: u32) -> io::Result<()> {
    let mut words = three_entries();
    print!(rt; "retire {day}")?;
    let outcome = call_retire::retire(book_of_sheet(3), &mut words, Day(day));
    show(rt, outcome, 0, &words[..18], &words[18..])
}

// A full register: every second entry is bidder 3's.
fn full_entries() -> [u32; WORDS] {
    let mut words = [BLANK; WORDS];
    for i in 0..Engine::ENTRIES {
        let owner = if i % 2 == 0 { 3 } else { 7 };
        register::append(&mut words, i, entry(owner, 9_999, 9_221, Engine::PENDING));
    }
    words
}

fn full_register(rt: &impl Print) -> io::Result<()> {
    let mut words = full_entries();
    print!(rt; "full register, bidder 3 defaults")?;
    let outcome = call_default::default(book_of_sheet(Engine::ENTRIES), &mut words, 3);
    show_answer(rt, outcome)?;
    print!(rt; " entries {} first", outcome.book.entries)?;
    report::numbers(rt, &words[..6])?;
    report::line(rt)
}

pub fn cases(rt: &impl Print) -> io::Result<()> {
    default_of_sheet(rt, 3)?;
    default_of_sheet(rt, 7)?;
    pay_three(rt, 650_000)?;
    pay_three(rt, 649_999)?;
    amounts(rt)?;
    for step in 0..=3 {
        step_case(rt, step)?;
    }
    short_register(rt)?;
    refusals(rt)?;
    open_stage(rt)?;
    retire_case(rt, 9_200)?;
    retire_case(rt, 9_201)?;
    retire_case(rt, 65_535)?;
    full_register(rt)
}
