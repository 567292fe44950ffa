// Registers with little room: a round is refused by the entries that it adds, not by its bids.
ghost use Rattle.std.specs.Prelude.{◌<◌, ◌≤◌};

use crate::refusals;
use call_funding::Funds;
use case_tools::{calls, report, show};
use market::book::{Book, Kind};
use market::engine::Engine;
use std::io;

const WORDS: usize = Engine::REGISTER_WORDS;

// An entry of past days at a place.
fn put(words: &mut [u32; WORDS], i: usize)
    requires { i < 1024 }
{
    let at = i * Engine::ENTRY_WORDS;
    words[at] = 31;
    words[at + 1] = 0;
    words[at + 2] = 1 + (i as u32);
    words[at + 3] = 100;
    words[at + 4] = 130;
    words[at + 5] = Engine::ISSUED;
}

// A register with `count` entries of past days.
pub fn filled(count: usize) -> [u32; WORDS]
    requires { count ≤ 1024 }
{
    let mut words = [show::BLANK; WORDS];
    for i in 0..count {
        put(&mut words, i);
    }
    words
}

// A book with `entries` entries, whose auction is open; 60 MW are offered.
fn opened(rt: &impl Print, words: &mut [u32], entries: usize) -> io::Result<Book> {
    let given = book_parts::with_entries(calls::fresh(1), entries);
    let letter = calls::deposit(rt, given, 7, Funds::Letter, 1_000_000)?;
    let other = calls::deposit(rt, letter.book, 8, Funds::Letter, 1_000_000)?;
    let third = calls::deposit(rt, other.book, 9, Funds::Letter, 1_000_000)?;
    let quantities = [0u32, 60, 60, 60];
    let open = calls::open(rt, third.book, words, Kind::Short, 131, 161, &quantities)?;
    Ok(open.book)
}

// A round of three bids over `entries` entries. Bidder 7 wins by both of its pairs, bidder 8 wins what these leave, if any, and
// bidder 9 wins nothing.
fn round(rt: &impl Print, entries: usize, second: u32) -> io::Result<()>
    requires { entries ≤ 1024 }
{
    let mut words = filled(entries);
    let book = opened(rt, &mut words, entries)?;
    let bids = [
        7u32, 0, 1, 2, 1_000, 20, 900, second, 8, 0, 1, 1, 800, 40, 9, 0, 1, 1, 700, 40,
    ];
    show::book(rt, refusals::lent(rt, book, &mut words, &bids)?)?;
    show_last(rt, &words)
}

// The last two places of the register.
fn show_last(rt: &impl Print, words: &[u32; WORDS]) -> io::Result<()> {
    print!(rt; "last places")?;
    report::numbers(rt, &words[6_132..])?;
    report::line(rt)
}

fn no_bids(rt: &impl Print) -> io::Result<()> {
    let mut words = filled(1_024);
    let book = opened(rt, &mut words, 1_024)?;
    let none = [0u32; 1];
    show::book(rt, refusals::lent(rt, book, &mut words, &none[0..0])?)?;
    show_last(rt, &words)
}

pub fn cases(rt: &impl Print) -> io::Result<()> {
    show::heading(rt, b"room for two entries: three bids, two winners")?;
    round(rt, 1_022, 30)?;
    show::heading(rt, b"room for one entry: three bids, one winner")?;
    round(rt, 1_023, 40)?;
    show::heading(rt, b"room for one entry: three bids, two winners")?;
    round(rt, 1_023, 30)?;
    show::heading(rt, b"no room: one winner, and no bids")?;
    round(rt, 1_024, 40)?;
    no_bids(rt)
}
