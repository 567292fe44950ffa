// Disburse and recover: a total that leaves the clearing account, or comes into it, shared by charges and energy.
#![tactic(auto)]

mod call;
mod columns;
mod flow;
mod parts;

ghost use Rattle.std.specs.Prelude.{◌≡◌};
ghost use Rattle.call_rules.specs.Steps.{no_register, outcome_of, list_after, to_amounts};
ghost use Rattle.call_disburse.specs.Disbursement as rules;

use flow::Flow;
use market::answer::Outcome;
use market::book::Book;
use market::units::Cents;

// Takes a total out of the clearing account and shares it among the participants.
pub fn disburse(
    book: Book,
    total: Cents,
    provincial: &[u32],
    export: &[u32],
    meters: &[u32],
    interties: &[u32],
    shares: &mut [u64],
) -> Outcome
    ensures outcome { result
        ≡ outcome_of
        (rules.disburse total
        (rules.pool_lists provincial.now export.now meters.now interties.now shares.old))
        book no_register }
    ensures shares { shares.new
        ≡ list_after to_amounts
        (rules.disburse total
        (rules.pool_lists provincial.now export.now meters.now interties.now shares.old))
        book no_register shares.old }
{
    call::settle(
        Flow::Out,
        book,
        total,
        provincial,
        export,
        meters,
        interties,
        shares,
    )
}

// Adds a total to the clearing account and shares it among the participants.
pub fn recover(
    book: Book,
    total: Cents,
    provincial: &[u32],
    export: &[u32],
    meters: &[u32],
    interties: &[u32],
    shares: &mut [u64],
) -> Outcome
    ensures outcome { result
        ≡ outcome_of
        (rules.recover total
        (rules.pool_lists provincial.now export.now meters.now interties.now shares.old))
        book no_register }
    ensures shares { shares.new
        ≡ list_after to_amounts
        (rules.recover total
        (rules.pool_lists provincial.now export.now meters.now interties.now shares.old))
        book no_register shares.old }
{
    call::settle(
        Flow::In,
        book,
        total,
        provincial,
        export,
        meters,
        interties,
        shares,
    )
}
