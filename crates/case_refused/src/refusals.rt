// The refusals of a round. The line after a round's line says whether book, register and lent lists are as they were.
ghost use Rattle.std.specs.Prelude.{◌*◌, ◌^◌, ◌<◌};

use crate::full;
use call_funding::Funds;
use case_tools::{calls, report, same, show};
use market::book::{Book, Kind};
use market::engine::Engine;
use std::io;

const WORDS: usize = Engine::REGISTER_WORDS;

// The lengths of the lists that a round writes to, as stated and a word too short.
const ANSWERS: usize = Engine::BID_ANSWER_WORDS;

const FEW_ANSWERS: usize = ANSWERS - 1;

const RESULTS: usize = Engine::PATH_ANSWER_WORDS;

const FEW_RESULTS: usize = RESULTS - 1;

const SCRATCH: usize = Engine::SCRATCH_WORDS;

const LITTLE_SCRATCH: usize = SCRATCH - 1;

// A book with two paths, and bidder 3's cash and bidder 7's letter; its auction is open, with `entries` entries in the register.
fn opened(rt: &impl Print, register: [u32; WORDS], entries: usize) -> io::Result<Book> {
    let mut words = register;
    let given = book_parts::with_entries(calls::fresh(2), entries);
    let cash = calls::deposit(rt, given, 3, Funds::Cash, 100_000)?;
    let letter = calls::deposit(rt, cash.book, 7, Funds::Letter, 1_000_000)?;
    let quantities = [0u32, 60, 60, 60, 0, 40, 40, 40];
    let open = calls::open(
        rt,
        letter.book,
        &mut words,
        Kind::Short,
        9_191,
        9_221,
        &quantities,
    )?;
    Ok(open.book)
}

fn sums(words: &[u32], answers: &[u64], results: &[u64], scratch: &[u32]) -> u64 {
    let one = same::sum(same::sum(1, words), answers);
    same::sum(same::sum(one, results), scratch)
}

fn show_same(rt: &impl Print, book: bool, lists: bool) -> io::Result<()> {
    let held = if book { "same" } else { "differs" };
    let lent = if lists { "same" } else { "differ" };
    println!(rt; "book {held}, lists {lent}")
}

// A round with lists of these lengths, and whether it leaves all as it was.
fn round<const A: usize, const R: usize, const S: usize>(
    rt: &impl Print,
    book: Book,
    words: &mut [u32],
    bids: &[u32],
) -> io::Result<Book>
    requires answers_fit { A * 8 < 2 ^ 63 }
    requires results_fit { R * 8 < 2 ^ 63 }
    requires scratch_fits { S * 4 < 2 ^ 63 }
{
    let mut answers = [show::BLANK_WIDE; A];
    let mut results = [show::BLANK_WIDE; R];
    let mut scratch = [show::BLANK; S];
    let before = sums(words, &answers, &results, &scratch);
    let outcome = calls::round(
        rt,
        book,
        words,
        bids,
        &mut answers,
        &mut results,
        &mut scratch,
    )?;
    let after = sums(words, &answers, &results, &scratch);
    show_same(rt, book == outcome.book, before == after)?;
    Ok(outcome.book)
}

// A round with lists of the stated lengths, and the book after it.
pub fn lent(rt: &impl Print, book: Book, words: &mut [u32], bids: &[u32]) -> io::Result<Book> {
    round::<ANSWERS, RESULTS, SCRATCH>(rt, book, words, bids)
}

// A round with lists of these lengths over a copy of the register.
fn apart_by<const A: usize, const R: usize, const S: usize>(
    rt: &impl Print,
    book: Book,
    register: [u32; WORDS],
    bids: &[u32],
) -> io::Result<()>
    requires answers_fit { A * 8 < 2 ^ 63 }
    requires results_fit { R * 8 < 2 ^ 63 }
    requires scratch_fits { S * 4 < 2 ^ 63 }
{
    let mut words = register;
    round::<A, R, S>(rt, book, &mut words, bids)?;
    Ok(())
}

// The same with lists of the stated lengths.
fn apart(rt: &impl Print, book: Book, register: [u32; WORDS], bids: &[u32]) -> io::Result<()> {
    apart_by::<ANSWERS, RESULTS, SCRATCH>(rt, book, register, bids)
}

// A round with a register that is a word too short.
fn short_register(rt: &impl Print, book: Book, bids: &[u32]) -> io::Result<()> {
    let mut words = [show::BLANK; WORDS - 1];
    lent(rt, book, &mut words, bids)?;
    Ok(())
}

// Each lent list in turn is a word too short, with a list of bids that a round accepts.
fn short_lists(rt: &impl Print) -> io::Result<()> {
    let words = [show::BLANK; WORDS];
    let book = opened(rt, words, 0)?;
    let bids = [3u32, 0, 100, 1, 20_000, 20];
    apart_by::<FEW_ANSWERS, RESULTS, SCRATCH>(rt, book, words, &bids)?;
    apart_by::<ANSWERS, FEW_RESULTS, SCRATCH>(rt, book, words, &bids)?;
    apart_by::<ANSWERS, RESULTS, LITTLE_SCRATCH>(rt, book, words, &bids)?;
    short_register(rt, book, &bids)?;
    apart(rt, book, words, &bids)
}

// Lengths, entries, stage and list are at fault, and then one fault fewer each time.
fn idle_order(rt: &impl Print) -> io::Result<()> {
    let words = full::filled(1_024);
    let bids = [0u32; Engine::BID_LIST_WORDS + 1];
    let unsound = book_parts::with_entries(calls::fresh(2), 1_025);
    apart_by::<FEW_ANSWERS, RESULTS, SCRATCH>(rt, unsound, words, &bids)?;
    apart(rt, unsound, words, &bids)?;
    apart(rt, book_parts::with_entries(unsound, 1_024), words, &bids)
}

// The list's length and its first bid are at fault, and then the bid alone.
fn open_order(rt: &impl Print) -> io::Result<()> {
    let words = full::filled(1_024);
    let bids = [0u32; Engine::BID_LIST_WORDS + 1];
    let book = opened(rt, words, 1_024)?;
    apart(rt, book, words, &bids)?;
    apart(rt, book, words, &bids[0..4_096])
}

// A second bid with a price, a path and a stamp.
fn second(
    rt: &impl Print,
    book: Book,
    words: [u32; WORDS],
    price: u32,
    path: u32,
    stamp: u32,
) -> io::Result<()> {
    let bids = [3u32, 0, 100, 1, 500, 20, 3, path, stamp, 1, price, 20];
    apart(rt, book, words, &bids)
}

// The second bid has a bad price, the first one's path and a falling stamp, and then one fault fewer each time over a full
// register; then there is room, and the stamps are equal.
fn bid_order(rt: &impl Print) -> io::Result<()> {
    let words = full::filled(1_024);
    let book = opened(rt, words, 1_024)?;
    second(rt, book, words, 0, 0, 99)?;
    second(rt, book, words, 400, 0, 99)?;
    second(rt, book, words, 400, 1, 99)?;
    second(rt, book, words, 400, 1, 100)?;
    second(
        rt,
        book_parts::with_entries(book, 1_022),
        words,
        400,
        1,
        100,
    )
}

// Two bids cut short at every place; 8 words are the first bid, and 14 both.
fn cut_short(rt: &impl Print) -> io::Result<()> {
    let words = [show::BLANK; WORDS];
    let book = opened(rt, words, 0)?;
    let bids = [3u32, 0, 100, 2, 500, 20, 400, 20, 7, 0, 100, 1, 300, 5];
    for end in 0..=14usize {
        apart(rt, book, words, &bids[..end])?;
    }
    Ok(())
}

// A bid with `n` laminations, whose prices fall.
fn with_laminations(n: u32) -> [u32; 46] {
    let mut words = [1u32; 46];
    words[0] = 3;
    words[3] = n;
    for i in 2..23usize {
        words[i * 2] = 1_000 - (i as u32);
    }
    words
}

fn laminations(rt: &impl Print) -> io::Result<()> {
    let words = [show::BLANK; WORDS];
    let book = opened(rt, words, 0)?;
    let twenty = with_laminations(20);
    let twenty_one = with_laminations(21);
    apart(rt, book, words, &twenty_one)?;
    apart(rt, book, words, &twenty_one[0..44])?;
    apart(rt, book, words, &twenty[0..44])
}

pub fn cases(rt: &impl Print) -> io::Result<()> {
    show::heading(rt, b"lists a word too short, and none")?;
    short_lists(rt)?;
    show::heading(rt, b"all faults, and one less each time: 1, 2, 20, 22, 14")?;
    idle_order(rt)?;
    open_order(rt)?;
    show::heading(
        rt,
        b"faults of one bid, and one less each time: 14, 15, 16, 23, none",
    )?;
    bid_order(rt)?;
    show::heading(rt, b"lists cut short")?;
    cut_short(rt)?;
    show::heading(rt, b"21 laminations, and 20")?;
    laminations(rt)
}
