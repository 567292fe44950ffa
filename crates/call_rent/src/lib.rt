// Rent: money into the clearing account.
#![tactic(auto)]

mod parts;

ghost use Rattle.std.specs.Prelude.{◌≡◌};
ghost use Rattle.call_rules.specs.Steps.{no_register, outcome_of};
ghost use Rattle.call_rent.specs.Rent as rules;

use market::answer::{Answer, Outcome};
use market::book::Book;
use market::units::Cents;

// Rent into the clearing account.
pub fn rent(book: Book, amount: Cents) -> Outcome
    ensures { result ≡ outcome_of (rules.rent amount) book no_register }
{
    if let Err(refusal) = parts::check(book, amount) {
        return Outcome {
            answer: Err(refusal),
            book,
        };
    }
    Outcome {
        answer: Ok(Answer::Done),
        book: parts::with_rent(book, amount),
    }
}
