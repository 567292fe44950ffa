// The parts of pay.
ghost use Rattle.std.specs.Prelude.{◌≡◌, true, ◌-◌, ◌<◌};
ghost use Rattle.market.specs.Answers.{first_of};
ghost use Rattle.market.specs.Limits.{bidder_limit};
ghost use Rattle.market.specs.Sound.{sound_book};
ghost use Rattle.call_rules.specs.Steps.{verdict_of};
ghost use Rattle.call_pay.specs.Pay.{pay_refusals, paid, book_paid, pay};

use market::answer::Refusal;
use market::book::{Bidder, Book};
use market::engine::Engine;
use market::units::Cents;

// Pay's refusals after 1 and 2.
fn check_own(book: Book, bidder: u32, amount: Cents) -> Result<(), Refusal>
    requires { sound_book book ≡ true }
    ensures { result ≡ first_of (pay_refusals book bidder amount) }
{
    let stage = book.stage;
    if !book_parts::is_idle(stage) {
        return Err(Refusal::Stage);
    }
    if bidder as usize >= Engine::BIDDERS {
        return Err(Refusal::Bidder);
    }
    let payer = book_parts::bidder(book, bidder);
    let owed = payer.owed;
    if amount.0 != owed.0 {
        return Err(Refusal::Payment);
    }
    if book_parts::no_value(payer) {
        return Err(Refusal::NothingDue);
    }
    let account = book.account;
    if !book_account::sound(book_account::plus(account, crate::value(payer))) {
        return Err(Refusal::Account);
    }
    Ok(())
}

// Whether pay is refused.
pub fn check(book: Book, words: &[u32], bidder: u32, amount: Cents) -> Result<(), Refusal>
    ensures { result ≡ verdict_of (pay bidder amount) book words.now }
{
    register_sound::check(book, words)?;
    check_own(book, bidder, amount)
}

// A bidder after it has paid.
fn paid_bidder(bidder: Bidder) -> Bidder
    ensures { result ≡ paid bidder }
{
    let cash = bidder.cash;
    let letter = bidder.letter;
    let step = bidder.step;
    Bidder {
        cash,
        applied: Cents(0),
        letter,
        hold: Cents(0),
        owed: Cents(0),
        step: fallen(step),
    }
}

// A step, one lower unless it is 0.
fn fallen(step: u32) -> u32
    ensures { result ≡ step - 1 }
{
    if step == 0 {
        return 0;
    }
    step - 1
}

// The book after a bidder has paid.
pub fn book_paid(book: Book, bidder: u32) -> Book
    requires book_value { sound_book book ≡ true }
    requires bidder_lt_bidder_limit { bidder < bidder_limit }
    ensures { result ≡ book_paid book bidder }
{
    let payer = book_parts::bidder(book, bidder);
    let account = book.account;
    let after = book_account::plus(account, crate::value(payer));
    let paid = book_parts::with_bidder(book, bidder, paid_bidder(payer));
    book_parts::with_account(paid, after)
}
