// The signed clearing account: an amount added or taken off, compared with an amount and with 0, its size.
#![tactic(auto)]

ghost use Rattle.std.specs.Prelude.{◌≡◌, true, ◌≤◌, pos, ◌+ℤ◌, ◌-ℤ◌, nat_abs};
ghost use Rattle.market.specs.Books.{balance, cents};
ghost use Rattle.market.specs.Limits.{account_limit};
ghost use Rattle.market.specs.Sound.{sound_account};
ghost use Rattle.std.specs.Int.Signed.{lt_z, le_z};

use market::engine::Engine;
use market::units::{Balance, Cents};

// Whether a balance is within the account's limit on either side.
pub fn sound(account: Balance) -> bool
    ensures { result ≡ sound_account account.0 }
{
    Engine::ACCOUNT_FLOOR <= account.0 && account.0 <= Engine::ACCOUNT_LIMIT
}

// A balance plus an amount.
pub fn plus(account: Balance, amount: Cents) -> Balance
    requires account_value { sound_account account.0 ≡ true }
    requires amount_le_account_limit { amount.0 ≤ account_limit }
    ensures { result ≡ balance (account.0 +ℤ pos amount.0) }
{
    Balance(account.0 + (amount.0 as i64))
}

// A balance minus an amount.
pub fn minus(account: Balance, amount: Cents) -> Balance
    requires account_value { sound_account account.0 ≡ true }
    requires amount_le_account_limit { amount.0 ≤ account_limit }
    ensures { result ≡ balance (account.0 -ℤ pos amount.0) }
{
    Balance(account.0 - (amount.0 as i64))
}

// Whether a balance is an amount or more.
pub fn at_least(account: Balance, amount: Cents) -> bool
    requires { amount.0 ≤ account_limit }
    ensures { result ≡ le_z (pos amount.0) account.0 }
{
    (amount.0 as i64) <= account.0
}

// Whether a balance is an amount or less.
pub fn at_most(account: Balance, amount: Cents) -> bool
    requires { amount.0 ≤ account_limit }
    ensures { result ≡ le_z account.0 (pos amount.0) }
{
    account.0 <= (amount.0 as i64)
}

// Whether a balance is below 0.
pub fn below_zero(account: Balance) -> bool
    ensures { result ≡ lt_z account.0 (pos 0) }
{
    account.0 < 0
}

// A signed number without its sign.
pub fn magnitude(signed: i64) -> u64
    ensures { result ≡ nat_abs signed }
{
    signed.unsigned_abs()
}
