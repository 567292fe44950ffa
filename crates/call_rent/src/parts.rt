// The parts of rent.
ghost use Rattle.std.specs.Prelude.{◌≡◌, true, ◌≤◌};
ghost use Rattle.market.specs.Books.{with_account};
ghost use Rattle.market.specs.Limits.{money_limit};
ghost use Rattle.market.specs.Sound.{sound_book};
ghost use Rattle.call_rules.specs.Steps.{no_register, verdict_of};
ghost use Rattle.call_rent.specs.Rent.{account_with_rent, rent};

use market::answer::Refusal;
use market::book::Book;
use market::engine::Engine;
use market::units::Cents;

// Whether rent is refused.
pub fn check(book: Book, amount: Cents) -> Result<(), Refusal>
    ensures { result ≡ verdict_of (rent amount) book no_register }
{
    if !book_sound::sound_book(book) {
        return Err(Refusal::Unsound);
    }
    if amount.0 == 0 {
        return Err(Refusal::Amount);
    }
    if amount.0 > Engine::MONEY_LIMIT {
        return Err(Refusal::Amount);
    }
    let account = book.account;
    if !book_account::sound(book_account::plus(account, amount)) {
        return Err(Refusal::Account);
    }
    Ok(())
}

// The book with the rent added to its account.
pub fn with_rent(book: Book, amount: Cents) -> Book
    requires book_value { sound_book book ≡ true }
    requires amount_le_money_limit { amount.0 ≤ money_limit }
    ensures { result ≡ with_account book (account_with_rent book amount) }
{
    let account = book.account;
    let after = book_account::plus(account, amount);
    book_parts::with_account(book, after)
}
