// The engine's one function for callers: a call that is any of the eleven.
#![tactic(auto)]

pub mod calls;

ghost use Rattle.call_rules.specs.Rule.{lists};
ghost use Rattle.call_rules.specs.Steps.{leaving};
ghost use Rattle.engine.specs.Lent.{lent};
ghost use Rattle.engine.specs.Step as rules;

use calls::Call;
use market::answer::Outcome;
use market::book::Book;

// Any of the eleven calls. `words` is the register. Of the lists a call uses its own: open `quantities`; a round `bids`, and
// `answers`, `results` and `scratch` to write to; payout `prices`; disburse and recover the four columns; and these three
// write to `amounts`.
pub fn call(
    book: Book,
    words: &mut [u32],
    what: Call,
    quantities: &[u32],
    bids: &[u32],
    prices: &[i64],
    provincial: &[u32],
    export: &[u32],
    meters: &[u32],
    interties: &[u32],
    amounts: &mut [u64],
    answers: &mut [u64],
    results: &mut [u64],
    scratch: &mut [u32],
) -> Outcome
    ensures { rules.Leaves book words.old what
        (lent quantities.now bids.now prices.now provincial.now export.now
        meters.now interties.now amounts.old answers.old results.old
        scratch.old)
        (leaving result words.new (lists amounts.new answers.new results.new))
        scratch.new }
{
    match what {
        Call::Deposit { bidder, to, amount } => call_funding::deposit(book, bidder, to, amount),
        Call::Withdraw {
            bidder,
            from,
            amount,
        } => call_funding::withdraw(book, bidder, from, amount),
        Call::Open { kind, period } => call_open::open(book, words, kind, period, quantities),
        Call::Round => call_round::round(book, words, bids, answers, results, scratch),
        Call::Pay { bidder, amount } => call_pay::pay(book, words, bidder, amount),
        Call::Default { bidder } => call_default::default(book, words, bidder),
        Call::Retire { day } => call_retire::retire(book, words, day),
        Call::Rent { amount } => call_rent::rent(book, amount),
        Call::Payout { day, failed } => call_payout::payout(
            book, words, day, failed, prices, amounts,
        ),
        Call::Disburse { total } => call_disburse::disburse(
            book, total, provincial, export, meters, interties, amounts,
        ),
        Call::Recover { total } => call_disburse::recover(
            book, total, provincial, export, meters, interties, amounts,
        ),
    }
}
