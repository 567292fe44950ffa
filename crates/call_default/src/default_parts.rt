// The parts of default.
ghost use Rattle.std.specs.Prelude.{◌≡◌, true, ◌+◌, ◌<◌, min};
ghost use Rattle.market.specs.Answers.{first_of};
ghost use Rattle.market.specs.Books.{cents};
ghost use Rattle.market.specs.Limits.{bidder_limit, step_limit};
ghost use Rattle.market.specs.Sound.{sound_book, BidderBounds};
ghost use Rattle.call_rules.specs.Steps.{verdict_of};
ghost use Rattle.call_default.specs.Default.{forfeit_of, draw_of, default_refusals, default, defaulted, book_forfeited};

use market::answer::Refusal;
use market::book::{Bidder, Book};
use market::engine::Engine;
use market::units::Cents;

// What a bidder forfeits: a tenth of its value, but at most its cash, applied cash and letter together.
pub fn forfeit(bidder: Bidder) -> Cents
    requires { BidderBounds bidder }
    ensures { result ≡ cents (forfeit_of bidder) }
{
    let cash = bidder.cash;
    let applied = bidder.applied;
    let letter = bidder.letter;
    let value = call_pay::value(bidder);
    let tenth = value.0 / 10;
    let most = cash.0 + applied.0 + letter.0;
    if most <= tenth {
        return Cents(most);
    }
    Cents(tenth)
}

// The part of the forfeit that is drawn on the letter: what cash and applied cash do not cover.
pub fn draw(bidder: Bidder) -> Cents
    requires { BidderBounds bidder }
    ensures { result ≡ cents (draw_of bidder) }
{
    let cash = bidder.cash;
    let applied = bidder.applied;
    let lost = forfeit(bidder);
    let held = cash.0 + applied.0;
    if lost.0 <= held {
        return Cents(0);
    }
    Cents(lost.0 - held)
}

// The cash that the forfeit leaves.
fn cash_left(bidder: Bidder) -> Cents
    requires { BidderBounds bidder }
    ensures { result ≡ (defaulted bidder).cash }
{
    let cash = bidder.cash;
    let applied = bidder.applied;
    let lost = forfeit(bidder);
    let held = cash.0 + applied.0;
    if held <= lost.0 {
        return Cents(0);
    }
    Cents(held - lost.0)
}

// A step, one higher unless it is the last.
fn risen(step: u32) -> u32
    ensures { result ≡ min (step + 1) step_limit }
{
    if step < Engine::STEP_LIMIT {
        return step + 1;
    }
    Engine::STEP_LIMIT
}

// A bidder after it has defaulted.
fn defaulted_bidder(bidder: Bidder) -> Bidder
    requires { BidderBounds bidder }
    ensures { result ≡ defaulted bidder }
{
    let letter = bidder.letter;
    let step = bidder.step;
    let drawn = draw(bidder);
    Bidder {
        cash: cash_left(bidder),
        applied: Cents(0),
        letter: Cents(letter.0 - drawn.0),
        hold: Cents(0),
        owed: Cents(0),
        step: risen(step),
    }
}

// Default's refusals after 1 and 2.
fn check_own(book: Book, bidder: u32) -> Result<(), Refusal>
    requires { sound_book book ≡ true }
    ensures { result ≡ first_of (default_refusals book bidder) }
{
    let stage = book.stage;
    if !book_parts::is_idle(stage) {
        return Err(Refusal::Stage);
    }
    if bidder as usize >= Engine::BIDDERS {
        return Err(Refusal::Bidder);
    }
    let debtor = book_parts::bidder(book, bidder);
    let owed = debtor.owed;
    if owed.0 == 0 {
        return Err(Refusal::NothingDue);
    }
    let account = book.account;
    if !book_account::sound(book_account::plus(account, forfeit(debtor))) {
        return Err(Refusal::Account);
    }
    Ok(())
}

// Whether default is refused.
pub fn check(book: Book, words: &[u32], bidder: u32) -> Result<(), Refusal>
    ensures { result ≡ verdict_of (default bidder) book words.now }
{
    register_sound::check(book, words)?;
    check_own(book, bidder)
}

// The book after a bidder's forfeit has gone to the account; the register's count is as before.
pub fn book_forfeited(book: Book, bidder: u32) -> Book
    requires book_value { sound_book book ≡ true }
    requires bidder_lt_bidder_limit { bidder < bidder_limit }
    ensures { result ≡ book_forfeited book bidder }
{
    let debtor = book_parts::bidder(book, bidder);
    let account = book.account;
    let after = book_account::plus(account, forfeit(debtor));
    let defaulted = book_parts::with_bidder(book, bidder, defaulted_bidder(debtor));
    book_parts::with_account(defaulted, after)
}
