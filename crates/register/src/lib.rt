// The register's entries in the lent words: read, put, appended; no crate above this one knows their places.
#![tactic(auto)]

ghost use Rattle.std.specs.Prelude.{◌≡◌, ◌++◌, ◌∷◌, [], ◌+◌, ◌*◌, ◌≤◌, length};
ghost use Rattle.market.specs.Limits.{entry_words};
ghost use Rattle.register.specs.Words.{entry_at, entries_of, entry_put, entries_written};

use market::book::{Entry, Period};
use market::engine::Engine;
use market::units::{Day, Megawatts};

// Which entries are to be removed: a bidder's pending ones, or issued ones that ended before a day.
#[derive(Clone, Copy)]
pub enum Removal {
    PendingOf(u32),
    EndedBefore(Day),
}

// The entry at a place.
pub fn read(words: &[u32], i: usize) -> Entry
    requires { (i + 1) * entry_words ≤ length words.now }
    ensures { result ≡ entry_at words.now i }
{
    let at = i * Engine::ENTRY_WORDS;
    Entry {
        bidder: words[at],
        path: words[at + 1],
        quantity: Megawatts(words[at + 2]),
        period: Period {
            first: Day(words[at + 3]),
            last: Day(words[at + 4]),
        },
        state: words[at + 5],
    }
}

// Puts an entry at a place.
pub fn put(words: &mut [u32], i: usize, entry: Entry)
    requires { (i + 1) * entry_words ≤ length words.old }
    ensures { words.new ≡ entry_put words.old i entry }
{
    let at = i * Engine::ENTRY_WORDS;
    words[at..at + Engine::ENTRY_WORDS].copy_from_slice(&[
        entry.bidder,
        entry.path,
        entry.quantity.0,
        entry.period.first.0,
        entry.period.last.0,
        entry.state,
    ]);
}

// Adds an entry after the counted ones.
pub fn append(words: &mut [u32], count: usize, entry: Entry)
    requires { (count + 1) * entry_words ≤ length words.old }
    ensures { words.new ≡ entries_written words.old (entries_of words.old count ++ (entry ∷ [])) }
{
    put(words, count, entry);
}
