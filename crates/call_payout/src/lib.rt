// Payout: what issued rights earn in an hour, paid by the clearing account.
#![tactic(auto)]

mod parts;

ghost use Rattle.std.specs.Prelude.{◌≡◌, ◌++◌, ◌≤◌, length};
ghost use Rattle.market.specs.Answers.{first_of};
ghost use Rattle.market.specs.Limits.{zones};
ghost use Rattle.register.specs.Refusals.{register_refusals};
ghost use Rattle.call_rules.specs.Steps.{outcome_of, list_after, to_amounts};
ghost use Rattle.call_payout.specs.Payout as rules;

use market::answer::{Answer, Outcome, Refusal};
use market::book::Book;
use market::engine::Engine;
use market::units::Day;

// The refusals of what is lent: 1 for a list that is too short, 1 or 2 for the register.
fn check_lent(book: Book, words: &[u32], prices: &[i64], amounts: &[u64]) -> Result<(), Refusal>
    ensures { result ≡ first_of (rules.short_payout_lists prices.now amounts.now ++ register_refusals book words.now) }
{
    if prices.len() < Engine::ZONES {
        return Err(Refusal::ShortBuffer);
    }
    if amounts.len() < Engine::BIDDERS {
        return Err(Refusal::ShortBuffer);
    }
    register_sound::check(book, words)
}

// The refusals of the day, 21, and of the prices, 30.
fn check_hour(day: Day, failed: bool, prices: &[i64]) -> Result<(), Refusal>
    requires { zones ≤ length prices.now }
    ensures { result ≡ first_of (rules.hour_refusals day failed prices.now) }
{
    if day.0 > Engine::DAY_LIMIT {
        return Err(Refusal::Days);
    }
    if failed {
        return Ok(());
    }
    if !call_payout_hour::all_sound(prices) {
        return Err(Refusal::ZonePrice);
    }
    Ok(())
}

// Writes what each bidder's issued rights earn in an hour of a day, failed or priced, to the front of the list that is lent for
// the amounts; the account loses their sum. Nothing is written before it is known that nothing is refused.
pub fn payout(
    book: Book,
    words: &[u32],
    day: Day,
    failed: bool,
    prices: &[i64],
    lent: &mut [u64],
) -> Outcome
    ensures outcome { result ≡ outcome_of (rules.payout day failed prices.now lent.old) book words.now }
    ensures amounts { lent.new
        ≡ list_after to_amounts (rules.payout day failed prices.now lent.old) book words.now lent.old }
{
    if let Err(refusal) = check_lent(book, words, prices, lent) {
        return Outcome {
            answer: Err(refusal),
            book,
        };
    }
    if let Err(refusal) = check_hour(day, failed, prices) {
        return Outcome {
            answer: Err(refusal),
            book,
        };
    }
    let sums = parts::amounts_of(book, words, day, failed, prices);
    let after = book_account::minus(book.account, sums.total);
    if !book_account::sound(after) {
        return Outcome {
            answer: Err(Refusal::Account),
            book,
        };
    }
    let paid = sums.amounts;
    lent_lists::write_amounts(paid, lent);
    Outcome {
        answer: Ok(Answer::Done),
        book: book_parts::with_account(book, after),
    }
}
