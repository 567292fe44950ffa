// Default: a bidder that owes money forfeits a tenth of its value and loses its pending entries.
#![tactic(auto)]

mod default_parts;

ghost use Rattle.std.specs.Prelude.{◌≡◌};
ghost use Rattle.call_rules.specs.Steps.{outcome_of, words_after};
ghost use Rattle.call_default.specs.Default as defaults;

use market::answer::{Answer, Outcome};
use market::book::Book;
use register::Removal;

// A bidder defaults: it forfeits and loses its pending entries (rules 8.5 to 8.8). The answer is the draw on its letter.
pub fn default(book: Book, words: &mut [u32], bidder: u32) -> Outcome
    ensures outcome { result ≡ outcome_of (defaults.default bidder) book words.old }
    ensures words { words.new ≡ words_after (defaults.default bidder) book words.old }
{
    if let Err(refusal) = default_parts::check(book, words, bidder) {
        return Outcome {
            answer: Err(refusal),
            book,
        };
    }
    let drawn = default_parts::draw(book_parts::bidder(book, bidder));
    let count = book.entries;
    let left = register_entries::remove(words, count, Removal::PendingOf(bidder));
    Outcome {
        answer: Ok(Answer::Drawn(drawn)),
        book: book_parts::with_entries(default_parts::book_forfeited(book, bidder), left),
    }
}
