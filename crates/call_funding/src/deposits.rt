// Deposits on a book that is known to be sound, which is not tested again: one, those of a bidder, and those of a list of bidders.
ghost use Rattle.std.specs.Prelude.{◌≡◌, true, ◌≤◌, take};
ghost use Rattle.market.specs.Books.{every};
ghost use Rattle.market.specs.Limits.{bidder_limit};
ghost use Rattle.market.specs.Sound.{sound_book};
ghost use Rattle.call_rules.specs.Steps.{no_register, outcome_of};
ghost use Rattle.call_funding.specs.Deposit.{deposit};
ghost use Rattle.call_funding.specs.Deposits.{deposit_if, bidder_deposits, list_deposits, no_deposit};

use crate::{BidderDeposits, Funds, parts};
use market::answer::{Answer, Outcome};
use market::book::Book;
use market::engine::Engine;
use market::units::Cents;

// A deposit of cash, or of a letter of credit.
pub fn deposit_sound(book: Book, bidder: u32, to: Funds, amount: Cents) -> Outcome
    requires { sound_book book ≡ true }
    ensures { result ≡ outcome_of (deposit bidder to amount) book no_register }
{
    if let Err(refusal) = parts::check_deposit(book, bidder, to, amount) {
        return Outcome {
            answer: Err(refusal),
            book,
        };
    }
    let next = parts::credited_bidder(book_parts::bidder(book, bidder), to, amount);
    Outcome {
        answer: Ok(Answer::Done),
        book: book_parts::with_bidder(book, bidder, next),
    }
}

// A deposit, if the amount is not 0.
fn deposit_if(book: Book, bidder: u32, to: Funds, amount: Cents) -> Outcome
    requires { sound_book book ≡ true }
    ensures { result ≡ deposit_if amount.0 book bidder to }
{
    if amount.0 == 0 {
        return Outcome {
            answer: Ok(Answer::Done),
            book,
        };
    }
    deposit_sound(book, bidder, to, amount)
}

// The deposits of a bidder: cash, and then letter.
fn deposit_both(book: Book, of: BidderDeposits) -> Outcome
    requires { sound_book book ≡ true }
    ensures { result ≡ bidder_deposits book of }
{
    let cash = deposit_if(book, of.bidder, Funds::Cash, of.cash);
    if cash.answer.is_err() {
        return cash;
    }
    deposit_if(cash.book, of.bidder, Funds::Letter, of.letter)
}

// The deposits of the first `count` bidders listed; the first refusal ends them.
pub fn deposit_each(book: Book, bidders: [BidderDeposits; Engine::BIDDERS], count: usize) -> Outcome
    requires book_value { sound_book book ≡ true }
    requires count_le_bidder_limit { count ≤ bidder_limit }
    ensures { result ≡ list_deposits book (take count bidders) }
{
    let mut now = book;
    for i in 0..count {
        let outcome = deposit_both(now, bidders[i]);
        if outcome.answer.is_err() {
            return outcome;
        }
        now = outcome.book;
    }
    Outcome {
        answer: Ok(Answer::Done),
        book: now,
    }
}

// Whether no deposit is asked for by the first `count` bidders listed.
pub fn none_asked(bidders: [BidderDeposits; Engine::BIDDERS], count: usize) -> bool
    requires { count ≤ bidder_limit }
    ensures { result ≡ every no_deposit (take count bidders) }
{
    for i in 0..count {
        if !asks_none(bidders[i]) {
            return false;
        }
    }
    true
}

fn asks_none(of: BidderDeposits) -> bool
    ensures { result ≡ no_deposit of }
{
    let cash = of.cash;
    let letter = of.letter;
    (cash.0 == 0) & (letter.0 == 0)
}
