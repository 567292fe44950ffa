// The winning bids of a round: how many, whether the register has room for them, and their entries added to it.
#![tactic(auto)]

ghost use Rattle.std.specs.Prelude.{◌≡◌, cond, ◌++◌, ◌+◌, ◌≤◌, ◌*◌, leb, ltb, length, count_by};
ghost use Rattle.market.specs.Books.{in_megawatts};
ghost use Rattle.market.specs.Limits.{bid_limit, entry_limit, entry_words, register_words};
ghost use Rattle.round_bids.specs.BidRefusals.{BidList};
ghost use Rattle.round_bids.specs.Bids.{bids_of};
ghost use Rattle.register.specs.Words.{entries_of, entries_written};
ghost use Rattle.round_entries.specs.Entries.{if_won, new_entries, winners_in};

use market::book::{Entry, Period};
use market::engine::Engine;
use market::units::Megawatts;

// How many of these bids won any MW.
fn winners(won: &[Megawatts]) -> usize
    ensures { result ≡ count_by (λ quantity. ltb 0 quantity.0) won.now }
{
    won.iter().filter(|quantity| 0 < quantity.0).count()
}

// Whether a register with `entries` entries has room for the winners among the first `count` bids.
pub fn has_room(entries: usize, won: [Megawatts; Engine::BIDS], count: usize) -> bool
    requires entries_le_entry_limit { entries ≤ entry_limit }
    requires count_le_bid_limit { count ≤ bid_limit }
    ensures { result ≡ leb (entries + winners_in (in_megawatts won) count) entry_limit }
{
    entries + winners(&won[..count]) <= Engine::ENTRIES
}

// Adds an entry after the counted ones if it has any MW. Returns the new count.
fn add_if_won(register: &mut [u32], count: usize, entry: Entry) -> usize
    requires { (count + length (if_won entry)) * entry_words ≤ length register.old }
    ensures count { result ≡ count + length (if_won entry) }
    ensures entries { register.new ≡ entries_written register.old (entries_of register.old count ++ if_won entry) }
{
    if entry.quantity.0 == 0 {
        return count;
    }
    register::append(register, count, entry);
    count + 1
}

// Adds the entries of the winning bids in the order of the list. Returns the new count.
pub fn add_entries(
    words: &[u32],
    won: [Megawatts; Engine::BIDS],
    period: Period,
    register: &mut [u32],
    counted: usize,
) -> usize
    requires bid_list { BidList words.now }
    requires words_bound { counted + length (new_entries period (in_megawatts won) (bids_of words.now)) ≤ entry_limit }
    requires register_words_in_bounds { register_words ≤ length register.old }
    ensures count { result ≡ counted + length (new_entries period (in_megawatts won) (bids_of words.now)) }
    ensures entries { register.new
        ≡ entries_written register.old
        (entries_of register.old counted ++ new_entries period (in_megawatts won) (bids_of words.now)) }
{
    let mut count = counted;
    for (k, at) in round_bids::places(words).enumerate() {
        let header = round_bids::header_at(words, at);
        let entry = Entry {
            bidder: header.bidder,
            path: header.path,
            quantity: won[k],
            period,
            state: Engine::PENDING,
        };
        count = add_if_won(register, count, entry);
    }
    count
}
