// The parts of disburse and recover that concern the book.
ghost use Rattle.std.specs.Prelude.{◌≡◌, true, ◌∷◌, ◌++◌, ◌≤◌};
ghost use Rattle.market.specs.Answers.{first_of};
ghost use Rattle.market.specs.Books.{balance, with_account};
ghost use Rattle.market.specs.Limits.{pool_limit};
ghost use Rattle.market.specs.Sound.{sound_book};
ghost use Rattle.call_rules.specs.Rules.{unsound_book};
ghost use Rattle.call_disburse.specs.Disbursement.{account_after_flow, within_bound, total_refusals};
ghost use Rattle.pool_columns.specs.Pools.{column_refusals};

use crate::flow::Flow;
use market::answer::Refusal;
use market::book::Book;
use market::engine::Engine;
use market::units::{Balance, Cents};
use pool_columns::Columns;

// The account after a total is disbursed or recovered.
fn account_after(flow: Flow, book: Book, total: Cents) -> Balance
    requires book_value { sound_book book ≡ true }
    requires total_le_pool_limit { total.0 ≤ pool_limit }
    ensures { result ≡ balance (account_after_flow flow book total) }
{
    let account = book.account;
    match flow {
        Flow::Out => book_account::minus(account, total),
        Flow::In => book_account::plus(account, total),
    }
}

// Whether the account may be left so: after disburse with at least the reserve, after recover not above 0.
fn within_bound(flow: Flow, after: Balance) -> bool
    ensures { result ≡ within_bound flow after.0 }
{
    match flow {
        Flow::Out => book_account::at_least(after, Cents(Engine::RESERVE)),
        Flow::In => book_account::at_most(after, Cents(0)),
    }
}

// Whether the book or the total is refused.
fn check_total(flow: Flow, book: Book, total: Cents) -> Result<(), Refusal>
    ensures { result ≡ first_of (unsound_book book ∷ total_refusals flow book total) }
{
    if !book_sound::sound_book(book) {
        return Err(Refusal::Unsound);
    }
    if total.0 == 0 {
        return Err(Refusal::Total);
    }
    if total.0 > Engine::POOL_LIMIT {
        return Err(Refusal::Total);
    }
    if !within_bound(flow, account_after(flow, book, total)) {
        return Err(Refusal::Total);
    }
    Ok(())
}

// Whether a call whose lists are long enough is refused.
pub fn check(flow: Flow, book: Book, total: Cents, columns: Columns) -> Result<(), Refusal>
    ensures { result ≡ first_of (unsound_book book ∷ (total_refusals flow book total ++ column_refusals total.0 columns)) }
{
    check_total(flow, book, total)?;
    pool_columns::check(total, columns)
}

// The book after a total is disbursed or recovered.
pub fn moved(flow: Flow, book: Book, total: Cents) -> Book
    requires book_value { sound_book book ≡ true }
    requires total_le_pool_limit { total.0 ≤ pool_limit }
    ensures { result ≡ with_account book (account_after_flow flow book total) }
{
    let after = account_after(flow, book, total);
    book_parts::with_account(book, after)
}
