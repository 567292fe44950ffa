// The register's counted entries: a bidder's issued, some removed, and the MW outstanding on each path (rule 6.3).
// Outstanding are the MW of a path's entries that overlap a given period.
#![tactic(auto)]

ghost use Rattle.std.specs.Prelude.{◌≡◌, cond, true, map, ℕ, ◌+◌, ◌*◌, ◌≤◌, length, get_or};
ghost use Rattle.market.specs.Limits.{entry_words, entry_limit, path_limit};
ghost use Rattle.register.specs.Entries.{issued_to, goes, without, sound_entry, shares_day, outstanding};
ghost use Rattle.register.specs.Words.{entry_at, entries_of, entry_put, entries_written};
ghost use Rattle.market.specs.Books.{every, megawatts, in_megawatts};

use market::book::{Entry, Period};
use market::engine::Engine;
use market::units::Megawatts;
use register::Removal;

fn issued_to(bidder: u32, entry: Entry) -> Entry
    ensures { result ≡ issued_to bidder entry }
{
    if entry.bidder == bidder {
        Entry {
            state: Engine::ISSUED,
            ..entry
        }
    } else {
        entry
    }
}

// Issues a bidder's entries.
pub fn issue(words: &mut [u32], count: usize, bidder: u32)
    requires { count * entry_words ≤ length words.old }
    ensures { words.new ≡ entries_written words.old (map (issued_to bidder) (entries_of words.old count)) }
{
    for i in 0..count {
        let entry = issued_to(bidder, register::read(words, i));
        register::put(words, i, entry);
    }
}

fn is_gone(what: Removal, entry: Entry) -> bool
    ensures { result ≡ goes what entry }
{
    match what {
        Removal::PendingOf(bidder) => entry.bidder == bidder && entry.state == Engine::PENDING,
        Removal::EndedBefore(day) => entry.state == Engine::ISSUED && entry.period.last < day,
    }
}

// Looks at one more entry: unless it is to be removed, it is put after those that stay. Returns how many stay.
fn keep(words: &mut [u32], i: usize, kept: usize, what: Removal) -> usize
    requires entry_words_in_bounds { (i + 1) * entry_words ≤ length words.old }
    requires kept_le_i { kept ≤ i }
    ensures count { result ≡ cond (goes what (entry_at words.old i)) kept (kept + 1) }
    ensures words { words.new
        ≡ cond (goes what (entry_at words.old i)) words.old (entry_put words.old kept (entry_at words.old i)) }
{
    let entry = register::read(words, i);
    if is_gone(what, entry) {
        return kept;
    }
    register::put(words, kept, entry);
    kept + 1
}

// Removes the entries that `what` names; the others move up in their order. Returns how many stay.
pub fn remove(words: &mut [u32], count: usize, what: Removal) -> usize
    requires { count * entry_words ≤ length words.old }
    ensures kept { result ≡ length (without what (entries_of words.old count)) }
    ensures words { words.new ≡ entries_written words.old (without what (entries_of words.old count)) }
{
    let mut kept: usize = 0;
    for i in 0..count {
        kept = keep(words, i, kept, what);
    }
    kept
}

// The megawatts of an entry if it overlaps `period`, else 0.
fn counted(period: Period, entry: Entry) -> Megawatts
    ensures { result ≡ megawatts (cond (shares_day entry.period period) entry.quantity.0 0) }
{
    if entry.period.first <= period.last && period.first <= entry.period.last {
        entry.quantity
    } else {
        Megawatts(0)
    }
}

// The megawatts outstanding on each path: those of its counted entries that overlap `period`. One pass over the entries adds each to
// its path.
pub fn outstanding(
    words: &[u32],
    count: usize,
    paths: usize,
    period: Period,
) -> [Megawatts; Engine::PATHS]
    requires entry_words_in_bounds { count * entry_words ≤ length words.now }
    requires count_le_entry_limit { count ≤ entry_limit }
    requires paths_le_path_limit { paths ≤ path_limit }
    requires count_value { every (sound_entry paths) (entries_of words.now count) ≡ true }
    ensures { (path : ℕ) → get_or (in_megawatts result) path 0 ≡ outstanding path period (entries_of words.now count) }
{
    let mut sums = [Megawatts(0); Engine::PATHS];
    for i in 0..count {
        let entry = register::read(words, i);
        sums[entry.path as usize].0 += counted(period, entry).0;
    }
    sums
}
