// Pay: a bidder settles what it owes after an auction, and its entries are issued.
#![tactic(auto)]

mod pay_parts;

ghost use Rattle.std.specs.Prelude.{◌≡◌};
ghost use Rattle.market.specs.Sound.{BidderBounds};
ghost use Rattle.market.specs.Books.{cents, value_of};
ghost use Rattle.call_rules.specs.Steps.{outcome_of, words_after};
ghost use Rattle.call_pay.specs.Pay as payments;

use market::answer::{Answer, Outcome};
use market::book::{Bidder, Book};
use market::units::Cents;

// A bidder's value.
pub fn value(bidder: Bidder) -> Cents
    requires { BidderBounds bidder }
    ensures { result ≡ cents (value_of bidder) }
{
    let applied = bidder.applied;
    let owed = bidder.owed;
    Cents(applied.0 + owed.0)
}

// A bidder pays what it owes, with new money; all its entries become issued.
pub fn pay(book: Book, words: &mut [u32], bidder: u32, amount: Cents) -> Outcome
    ensures outcome { result ≡ outcome_of (payments.pay bidder amount) book words.old }
    ensures words { words.new ≡ words_after (payments.pay bidder amount) book words.old }
{
    if let Err(refusal) = pay_parts::check(book, words, bidder, amount) {
        return Outcome {
            answer: Err(refusal),
            book,
        };
    }
    let count = book.entries;
    register_entries::issue(words, count, bidder);
    Outcome {
        answer: Ok(Answer::Done),
        book: pay_parts::book_paid(book, bidder),
    }
}
