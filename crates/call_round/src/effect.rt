// What an answered round leaves: the book after it, and what is lent.
ghost use Rattle.std.specs.Prelude.{◌≡◌, true, ◌++◌, ◌+◌, ◌≤◌, length};
ghost use Rattle.market.specs.Books.{every, in_cents, in_megawatts, with_front};
ghost use Rattle.market.specs.Limits.{path_limit, bid_limit, bid_answer_words, path_answer_words, entry_limit, register_words};
ghost use Rattle.market.specs.Sound.{sound_book, sound_quantity, period_of};
ghost use Rattle.round_bids.specs.BidRefusals.{BidList};
ghost use Rattle.round_bids.specs.Bids.{bids_of};
ghost use Rattle.round_charges.specs.Charges.{sound_clearing_price, bid_rows};
ghost use Rattle.round_entries.specs.Entries.{new_entries};
ghost use Rattle.round_paths.specs.PathRows.{path_rows};
ghost use Rattle.register.specs.Words.{entries_of, entries_written};
ghost use Rattle.call_round.specs.Round.{book_with};

use crate::stage;
use crate::worked::Worked;
use market::book::Book;
use round_awards::Awarded;

// The book after a round with these MW won, MW sold and clearing prices, and `entries` entries.
pub fn book_with(book: Book, bids: &[u32], awarded: Awarded, entries: usize) -> Book
    requires book_value { sound_book book ≡ true }
    requires bid_list { BidList bids.now }
    requires won_value { every sound_quantity (in_megawatts awarded.won) ≡ true }
    requires sold_value { every sound_quantity (in_megawatts awarded.sold) ≡ true }
    requires prices_value { every sound_clearing_price (in_cents awarded.prices) ≡ true }
    ensures { result
        ≡ book_with book (in_megawatts awarded.won) (in_megawatts awarded.sold) (in_cents awarded.prices) (bids_of bids.now) entries }
{
    let won = awarded.won;
    let sold = awarded.sold;
    let prices = awarded.prices;
    let bidders = book.bidders;
    let paths = book.paths;
    let account = book.account;
    let stage = book.stage;
    let charges = round_charges::charges_of(bids, won, prices);
    let billed = round_bidders::bill_all(bidders, charges);
    let slots = round_paths::sold_of(paths, sold, book.path_count);
    let next = round_paths::stage_after(stage);
    Book {
        paths: slots,
        path_count: book.path_count,
        bidders: billed,
        account,
        entries,
        stage: next,
    }
}

// The answers of bids and paths, at the front of the lists that are lent for them.
pub fn write_answers(
    paths: usize,
    bids: &[u32],
    worked: Worked,
    awarded: Awarded,
    answers: &mut [u64],
    results: &mut [u64],
)
    requires paths_le_path_limit { paths ≤ path_limit }
    requires bid_list { BidList bids.now }
    requires marks_len { length worked.marks ≡ bid_limit }
    requires won_value { every sound_quantity (in_megawatts awarded.won) ≡ true }
    requires prices_value { every sound_clearing_price (in_cents awarded.prices) ≡ true }
    requires bid_answer_words_in_bounds { bid_answer_words ≤ length answers.old }
    requires path_answer_words_in_bounds { path_answer_words ≤ length results.old }
    ensures bids { answers.new
        ≡ with_front (bid_rows worked.marks (in_megawatts awarded.won) (in_cents awarded.prices) (bids_of bids.now))
        answers.old }
    ensures paths { results.new
        ≡ with_front (path_rows (in_megawatts worked.offered) (in_megawatts awarded.sold) (in_cents awarded.prices) paths)
        results.old }
{
    let marks = worked.marks;
    let offered = worked.offered;
    let won = awarded.won;
    let sold = awarded.sold;
    let prices = awarded.prices;
    round_charges::write_bids(bids, &marks, won, prices, answers);
    round_paths::write_paths(offered, sold, prices, paths, results);
}

// Adds the entries of the winners to the register. Returns the new count.
pub fn add_winners(book: Book, bids: &[u32], awarded: Awarded, words: &mut [u32]) -> usize
    requires bid_list { BidList bids.now }
    requires bids_bound { book.entries + length (new_entries (period_of book.stage) (in_megawatts awarded.won) (bids_of bids.now)) ≤ entry_limit }
    requires register_words_in_bounds { register_words ≤ length words.old }
    ensures count { result ≡ book.entries + length (new_entries (period_of book.stage) (in_megawatts awarded.won) (bids_of bids.now)) }
    ensures words { words.new
        ≡ entries_written words.old
        (entries_of words.old book.entries ++ new_entries (period_of book.stage) (in_megawatts awarded.won) (bids_of bids.now)) }
{
    let won = awarded.won;
    let stage = book.stage;
    let period = stage::period_of(stage);
    round_entries::add_entries(bids, won, period, words, book.entries)
}
