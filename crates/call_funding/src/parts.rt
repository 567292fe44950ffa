// The parts of deposit and withdraw.
ghost use Rattle.std.specs.Prelude.{◌≡◌, true, ◌≤◌};
ghost use Rattle.market.specs.Answers.{first_of};
ghost use Rattle.market.specs.Books.{with_cash, with_letter};
ghost use Rattle.market.specs.Sound.{sound_book, BidderBounds};
ghost use Rattle.call_funding.specs.Deposit.{has_room, deposit_refusals, with_deposit};
ghost use Rattle.call_funding.specs.Funding.{funding_refusals};
ghost use Rattle.call_funding.specs.Withdraw.{withdrawable, withdraw_refusals, debited};

use crate::Funds;
use market::answer::Refusal;
use market::book::{Bidder, Book};
use market::engine::Engine;
use market::units::Cents;

fn with_cash(bidder: Bidder, cash: Cents) -> Bidder
    ensures { result ≡ with_cash bidder cash.0 }
{
    let mut next = bidder;
    next.cash = cash;
    next
}

fn with_letter(bidder: Bidder, letter: Cents) -> Bidder
    ensures { result ≡ with_letter bidder letter.0 }
{
    let mut next = bidder;
    next.letter = letter;
    next
}

// The refusals that deposit and withdraw have in common.
fn check_common(bidder: u32, amount: Cents) -> Result<(), Refusal>
    ensures { result ≡ first_of (funding_refusals bidder amount) }
{
    if bidder as usize >= Engine::BIDDERS {
        return Err(Refusal::Bidder);
    }
    if amount.0 == 0 {
        return Err(Refusal::Amount);
    }
    Ok(())
}

fn has_room(bidder: Bidder, to: Funds, amount: Cents) -> bool
    requires { BidderBounds bidder }
    ensures { result ≡ has_room bidder to amount }
{
    let cash = bidder.cash;
    let applied = bidder.applied;
    let letter = bidder.letter;
    match to {
        Funds::Cash => amount.0 <= Engine::MONEY_LIMIT - (cash.0 + applied.0),
        Funds::Letter => amount.0 <= Engine::MONEY_LIMIT - letter.0,
    }
}

// Whether a deposit on a sound book is refused.
pub fn check_deposit(book: Book, bidder: u32, to: Funds, amount: Cents) -> Result<(), Refusal>
    requires { sound_book book ≡ true }
    ensures { result ≡ first_of (deposit_refusals book bidder to amount) }
{
    check_common(bidder, amount)?;
    if has_room(book_parts::bidder(book, bidder), to, amount) {
        Ok(())
    } else {
        Err(Refusal::Amount)
    }
}

// The bidder after a deposit.
pub fn credited_bidder(bidder: Bidder, to: Funds, amount: Cents) -> Bidder
    requires { has_room bidder to amount ≡ true }
    ensures { result ≡ with_deposit bidder to amount }
{
    let cash = bidder.cash;
    let letter = bidder.letter;
    match to {
        Funds::Cash => with_cash(bidder, Cents(cash.0 + amount.0)),
        Funds::Letter => with_letter(bidder, Cents(letter.0 + amount.0)),
    }
}

// What a bidder may withdraw.
fn withdrawable_of(bidder: Bidder, from: Funds) -> Cents
    requires { BidderBounds bidder }
    ensures { result.0 ≡ withdrawable bidder from }
{
    let cash = bidder.cash;
    let letter = bidder.letter;
    let hold = bidder.hold;
    match from {
        Funds::Cash => cash,
        Funds::Letter => Cents(letter.0 - hold.0),
    }
}

// Whether a withdrawal from a sound book is refused.
pub fn check_withdrawal(book: Book, bidder: u32, from: Funds, amount: Cents) -> Result<(), Refusal>
    requires { sound_book book ≡ true }
    ensures { result ≡ first_of (withdraw_refusals book bidder from amount) }
{
    check_common(bidder, amount)?;
    let most = withdrawable_of(book_parts::bidder(book, bidder), from);
    if amount.0 <= most.0 {
        Ok(())
    } else {
        Err(Refusal::Withdrawal)
    }
}

// The bidder after a withdrawal.
pub fn debited_bidder(bidder: Bidder, from: Funds, amount: Cents) -> Bidder
    requires bidder_bounds { BidderBounds bidder }
    requires amount_bound { amount.0 ≤ withdrawable bidder from }
    ensures { result ≡ debited bidder from amount }
{
    let cash = bidder.cash;
    let letter = bidder.letter;
    match from {
        Funds::Cash => with_cash(bidder, Cents(cash.0 - amount.0)),
        Funds::Letter => with_letter(bidder, Cents(letter.0 - amount.0)),
    }
}
