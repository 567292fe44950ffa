// The parts of payout: what an entry earns, and the sums by bidder.
ghost use Rattle.std.specs.Prelude.{◌≡◌, true, cond, ℕ, ◌*◌, ◌≤◌, ◌<◌, get_or};
ghost use Rattle.market.specs.Books.{no_path, cents, in_cents};
ghost use Rattle.market.specs.Limits.{path_limit, zone_limit, quantity_limit, zone_price_limit, account_limit};
ghost use Rattle.register.specs.Refusals.{counted_entries, LentRegister};
ghost use Rattle.pool_sharing.specs.Sharing.{total};
ghost use Rattle.call_payout.specs.Payout.{rate_on, pays_on, amounts_of, sound_prices};

use market::book::{Book, Entry, Path};
use market::engine::Engine;
use market::units::{Cents, Day};

// The amounts of the bidders, and their sum.
#[derive(Clone, Copy)]
pub struct Sums {
    pub amounts: [Cents; Engine::BIDDERS],
    pub total: Cents,
}

// What one MW earns in the hour on each of the first `count` paths.
fn rates_of(
    paths: [Path; Engine::PATHS],
    count: usize,
    failed: bool,
    prices: &[i64],
) -> [Cents; Engine::PATHS]
    requires count_le_path_limit { count ≤ path_limit }
    requires prices_value { sound_prices failed prices.now ≡ true }
    requires by_index { (i : ℕ) → i < count → (get_or paths i no_path).zone ≤ zone_limit }
    ensures { (i : ℕ) → i < count → get_or (in_cents result) i 0 ≡ rate_on failed prices.now (get_or paths i no_path) }
{
    let mut rates = [Cents(0); Engine::PATHS];
    for i in 0..count {
        let hour = call_payout_hour::hour_at(failed, prices, paths[i]);
        rates[i] = call_payout_hour::rate_of(hour, paths[i].direction);
    }
    rates
}

// Whether an entry earns on a day: it is issued, and its period has the day.
fn pays_on(day: Day, entry: Entry) -> bool
    ensures { result ≡ pays_on day entry }
{
    entry.state == Engine::ISSUED && entry.period.first <= day && day <= entry.period.last
}

// What an entry earns in an hour, by what one MW earns on its path.
fn earned_by(day: Day, rate: Cents, entry: Entry) -> Cents
    requires quantity_le_quantity_limit { entry.quantity.0 ≤ quantity_limit }
    requires rate_le_zone_price_limit { rate.0 ≤ zone_price_limit }
    ensures value { result ≡ cents (cond (pays_on day entry) (entry.quantity.0 * rate.0) 0) }
    ensures result_bound { result.0 ≤ quantity_limit * zone_price_limit }
{
    if !pays_on(day, entry) {
        return Cents(0);
    }
    Cents(u64::from(entry.quantity.0) * rate.0)
}

// The amount of each bidder for the hour. What one MW earns on each path is computed once.
pub fn amounts_of(book: Book, words: &[u32], day: Day, failed: bool, prices: &[i64]) -> Sums
    requires lent_register { LentRegister book words.now }
    requires prices_value { sound_prices failed prices.now ≡ true }
    ensures amounts_value { in_cents result.amounts ≡ amounts_of book day failed prices.now (counted_entries book words.now) }
    ensures total_value { result.total.0 ≡ total (amounts_of book day failed prices.now (counted_entries book words.now)) }
    ensures total_le_account_limit { result.total.0 ≤ account_limit }
{
    let rates = rates_of(book.paths, book.path_count, failed, prices);
    let mut amounts = [Cents(0); Engine::BIDDERS];
    let mut total: u64 = 0;
    for i in 0..book.entries {
        let entry = register::read(words, i);
        let earned = earned_by(day, rates[entry.path as usize], entry);
        amounts[entry.bidder as usize].0 += earned.0;
        total += earned.0;
    }
    Sums {
        amounts,
        total: Cents(total),
    }
}
