// Retire: the issued entries that have ended leave the register.
#![tactic(auto)]

ghost use Rattle.std.specs.Prelude.{◌≡◌};
ghost use Rattle.call_rules.specs.Steps.{verdict_of, outcome_of, words_after};
ghost use Rattle.call_retire.specs.Retire as rules;

use market::answer::{Answer, Outcome, Refusal};
use market::book::Book;
use market::engine::Engine;
use market::units::Day;
use register::Removal;

// Whether retire is refused.
fn check(book: Book, words: &[u32], day: Day) -> Result<(), Refusal>
    ensures { result ≡ verdict_of (rules.retire day) book words.now }
{
    register_sound::check(book, words)?;
    if day.0 > Engine::DAY_LIMIT {
        return Err(Refusal::Days);
    }
    Ok(())
}

// Removes the issued entries that have ended when `day` begins (rule 9.1).
pub fn retire(book: Book, words: &mut [u32], day: Day) -> Outcome
    ensures outcome { result ≡ outcome_of (rules.retire day) book words.old }
    ensures words { words.new ≡ words_after (rules.retire day) book words.old }
{
    if let Err(refusal) = check(book, words, day) {
        return Outcome {
            answer: Err(refusal),
            book,
        };
    }
    let count = book.entries;
    let left = register_entries::remove(words, count, Removal::EndedBefore(day));
    Outcome {
        answer: Ok(Answer::Done),
        book: book_parts::with_entries(book, left),
    }
}
