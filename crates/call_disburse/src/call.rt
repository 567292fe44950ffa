// One call for both directions of a total.
ghost use Rattle.std.specs.Prelude.{◌≡◌};
ghost use Rattle.call_rules.specs.Steps.{no_register, outcome_of, list_after, to_amounts};
ghost use Rattle.call_disburse.specs.Disbursement as rules;

use crate::flow::Flow;
use crate::{columns, parts};
use market::answer::{Answer, Outcome, Refusal};
use market::book::Book;
use market::units::Cents;

// Disburses or recovers a total.
pub fn settle(
    flow: Flow,
    book: Book,
    total: Cents,
    provincial: &[u32],
    export: &[u32],
    meters: &[u32],
    interties: &[u32],
    shares: &mut [u64],
) -> Outcome
    ensures outcome { result
        ≡ outcome_of
        (rules.settle flow total
        (rules.pool_lists provincial.now export.now meters.now interties.now shares.old))
        book no_register }
    ensures shares { shares.new
        ≡ list_after to_amounts
        (rules.settle flow total
        (rules.pool_lists provincial.now export.now meters.now interties.now shares.old))
        book no_register shares.old }
{
    if !columns::all_long_enough(provincial, export, meters, interties, shares) {
        return Outcome {
            answer: Err(Refusal::ShortBuffer),
            book,
        };
    }
    let columns = columns::columns_of(provincial, export, meters, interties);
    if let Err(refusal) = parts::check(flow, book, total, columns) {
        return Outcome {
            answer: Err(refusal),
            book,
        };
    }
    lent_lists::write_amounts(pool_columns::shares_of(total, columns), shares);
    Outcome {
        answer: Ok(Answer::Done),
        book: parts::moved(flow, book, total),
    }
}
