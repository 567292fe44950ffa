// Whether lent 64-bit words encode a book: each word is one that some book has there.
ghost use Rattle.std.specs.Prelude.{◌≡◌, ◌≤◌, length, take, drop};
ghost use Rattle.library_book.specs.BookWords as rules;

use crate::parts::{all_valid, is_narrow};
use crate::{BIDDERS_FROM, FRONT_WORDS};
use market::book::{Bidder, Path};
use market::engine::Engine;

// Whether the words of the stage are those of the stage that they are read as, which are all 0 where it is idle.
fn stage_valid(words: &[u64]) -> bool
    requires { rules.front_size ≤ length words.now }
    ensures { result ≡ rules.same_words (take 5 (drop 2 words.now)) (rules.stage_words (rules.stage_at words.now)) }
{
    if words[2] == 0 {
        return (words[3] == 0) & ((words[4] == 0) & ((words[5] == 0) & (words[6] == 0)));
    }
    let kind = words[3] <= 1;
    let round = is_narrow(words[4]);
    let first = is_narrow(words[5]);
    let last = is_narrow(words[6]);
    (words[2] == 1) & (kind & (round & (first & last)))
}

// Whether the first words are those of the book that they are read as. The counts of paths and entries may be any numbers.
pub fn encodes_book(words: &[u64]) -> bool
    requires { rules.book_size ≤ length words.now }
    ensures { result ≡ rules.encodes_book words.now }
{
    let stage = stage_valid(words);
    let paths = all_valid::<Path>(words, FRONT_WORDS, Engine::PATHS);
    let bidders = all_valid::<Bidder>(words, BIDDERS_FROM, Engine::BIDDERS);
    stage & paths & bidders
}
