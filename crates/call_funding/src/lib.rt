// Deposit and withdraw: cash and letters of credit, in and out; and the deposits of a list, one after another.
#![tactic(auto)]

mod deposits;
mod parts;

ghost use Rattle.std.specs.Prelude.{◌≡◌, true, min, take};
ghost use Rattle.market.specs.Limits.{bidder_limit};
ghost use Rattle.market.specs.Sound.{sound_book};
ghost use Rattle.call_rules.specs.Steps.{no_register, outcome_of};
ghost use Rattle.call_funding.specs.Deposit as deposit_rule;
ghost use Rattle.call_funding.specs.Deposits.{list_deposits};
ghost use Rattle.call_funding.specs.Withdraw as withdrawals;

use market::answer::{Answer, Outcome, Refusal};
use market::book::Book;
use market::engine::Engine;
use market::units::Cents;

// What is deposited or withdrawn: cash, or a letter of credit.
#[derive(Clone, Copy)]
pub enum Funds {
    Cash,
    Letter,
}

// What a bidder deposits: cash, and a letter of credit; where an amount is 0 there is no such deposit.
#[derive(Clone, Copy)]
pub struct BidderDeposits {
    pub bidder: u32,
    pub cash: Cents,
    pub letter: Cents,
}

// The deposits of bidders, in as many slots as a book has bidders: those of the first `count` slots, or of all where there are fewer.
#[derive(Clone, Copy)]
pub struct DepositList {
    pub count: usize,
    pub bidders: [BidderDeposits; Engine::BIDDERS],
}

// A deposit of cash, or of a letter of credit.
pub fn deposit(book: Book, bidder: u32, to: Funds, amount: Cents) -> Outcome
    ensures { result ≡ outcome_of (deposit_rule.deposit bidder to amount) book no_register }
{
    if !book_sound::sound_book(book) {
        return Outcome {
            answer: Err(Refusal::Unsound),
            book,
        };
    }
    deposits::deposit_sound(book, bidder, to, amount)
}

// How many slots of a list count: at most all of them.
fn slots_listed(count: usize) -> usize
    ensures { result ≡ min count bidder_limit }
{
    if count <= Engine::BIDDERS {
        return count;
    }
    Engine::BIDDERS
}

// Deposits one after another, for each bidder cash and then letter; the first refusal ends them. The book is tested once for all of
// them: one that is not sound gets 2 at the first deposit that is asked for, and where none is asked for nothing is refused.
pub fn deposit_all(book: Book, list: DepositList) -> Outcome
    ensures { result ≡ list_deposits book (take list.count list.bidders) }
{
    let bidders = list.bidders;
    let count = slots_listed(list.count);
    if book_sound::sound_book(book) {
        return deposits::deposit_each(book, bidders, count);
    }
    if deposits::none_asked(bidders, count) {
        return Outcome {
            answer: Ok(Answer::Done),
            book,
        };
    }
    Outcome {
        answer: Err(Refusal::Unsound),
        book,
    }
}

// A withdrawal on a book that is known to be sound.
fn withdraw_sound(book: Book, bidder: u32, from: Funds, amount: Cents) -> Outcome
    requires { sound_book book ≡ true }
    ensures { result ≡ outcome_of (withdrawals.withdraw bidder from amount) book no_register }
{
    if let Err(refusal) = parts::check_withdrawal(book, bidder, from, amount) {
        return Outcome {
            answer: Err(refusal),
            book,
        };
    }
    let next = parts::debited_bidder(book_parts::bidder(book, bidder), from, amount);
    Outcome {
        answer: Ok(Answer::Done),
        book: book_parts::with_bidder(book, bidder, next),
    }
}

// A withdrawal of cash, or of what is not held of the letter.
pub fn withdraw(book: Book, bidder: u32, from: Funds, amount: Cents) -> Outcome
    ensures { result ≡ outcome_of (withdrawals.withdraw bidder from amount) book no_register }
{
    if !book_sound::sound_book(book) {
        return Outcome {
            answer: Err(Refusal::Unsound),
            book,
        };
    }
    withdraw_sound(book, bidder, from, amount)
}
