// The hour of a payout as one entry sees it, and what a MW earns in it.
#![tactic(auto)]

ghost use Rattle.std.specs.Prelude.{◌≡◌, true, ◌≤◌, pos, neg_ℤ, length, get_or, take};
ghost use Rattle.market.specs.Books.{every, cents, zone_price};
ghost use Rattle.market.specs.Limits.{zones, zone_price_limit};
ghost use Rattle.call_payout_hour.specs.Hours.{above_zero, rate, hour_at, sound_zone_price, sound_hour};

use market::book::{Direction, Path};
use market::engine::Engine;
use market::units::{Cents, ZonePrice};

// An hour: failed, or with the price at the zone of the entry's path, in cents per MW.
#[derive(Clone, Copy)]
pub enum Hour {
    Failed,
    Priced(ZonePrice),
}

// The part of a price above 0: the price itself, or 0 where it is negative.
fn above_zero(price: ZonePrice) -> Cents
    ensures { result ≡ cents (above_zero price.0) }
{
    Cents(book_account::magnitude(price.0.max(0)))
}

// The part of a price's negative above 0.
fn below_zero(price: ZonePrice) -> Cents
    ensures { result ≡ cents (above_zero (neg_ℤ price.0)) }
{
    Cents(book_account::magnitude(price.0.min(0)))
}

// What one MW earns in the hour on a path that leads in a given direction.
pub fn rate_of(hour: Hour, direction: Direction) -> Cents
    requires { sound_hour hour ≡ true }
    ensures value { result ≡ cents (rate hour direction) }
    ensures result_le_zone_price_limit { result.0 ≤ zone_price_limit }
{
    match hour {
        Hour::Failed => Cents(0),
        Hour::Priced(price) => rate_at(price, direction),
    }
}

fn rate_at(price: ZonePrice, direction: Direction) -> Cents
    requires { sound_zone_price price.0 ≡ true }
    ensures value { result ≡ cents (rate (Hour.Priced price) direction) }
    ensures result_le_zone_price_limit { result.0 ≤ zone_price_limit }
{
    match direction {
        Direction::Export => above_zero(price),
        Direction::Import => below_zero(price),
    }
}

// The price at a zone, 0 past the end of the list.
fn price_at(prices: &[i64], zone: usize) -> ZonePrice
    ensures { result ≡ zone_price (get_or prices.now zone (pos 0)) }
{
    ZonePrice(prices.get(zone).copied().unwrap_or(0))
}

// The hour as an entry on a path sees it.
pub fn hour_at(failed: bool, prices: &[i64], path: Path) -> Hour
    ensures { result ≡ hour_at failed prices.now path }
{
    if failed {
        return Hour::Failed;
    }
    Hour::Priced(price_at(prices, path.zone as usize))
}

// Whether each zone price is within the limits.
pub fn all_sound(prices: &[i64]) -> bool
    requires { zones ≤ length prices.now }
    ensures { result ≡ every sound_zone_price (take zones prices.now) }
{
    prices[..Engine::ZONES].iter().all(|&price| -Engine::ZONE_PRICE_LIMIT <= price
        && price <= Engine::ZONE_PRICE_LIMIT)
}
