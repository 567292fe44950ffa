// The reply to a call, from what the call left.
ghost use Rattle.std.specs.Prelude.{◌≡◌, map, ◌*◌, ◌≤◌, length, take};
ghost use Rattle.market.specs.Answers.{bids_in};
ghost use Rattle.market.specs.Books.{offer_of};
ghost use Rattle.market.specs.Limits.{bidder_limit, bid_limit, bid_answer_size, path_answer_words, path_limit};
ghost use Rattle.text_numbers.specs.Put.{Put};
ghost use Rattle.journal_reply.specs.Replies.{reply_room};
ghost use Rattle.journal_step.specs.LineStep as rules;

use engine::calls::Call;
use journal_reply::Told;
use market::answer::{Outcome, numbered};
use market::book::Path;
use market::engine::Engine;

// What an answered call tells besides its number: nothing, what each path offers, what a round awards, or 32 amounts.
#[derive(Clone, Copy, PartialEq)]
pub enum Tell {
    Nothing,
    Offers,
    Awards,
    Amounts,
}

// What each path of a book offers, in slots, and how many paths there are.
#[derive(Clone, Copy)]
pub struct Offers {
    pub count: usize,
    pub slots: [u64; Engine::PATHS],
}

pub fn tell_of(call: Call) -> Tell
    ensures { result ≡ rules.tell_by call }
{
    match call {
        Call::Open { .. } => Tell::Offers,
        Call::Round => Tell::Awards,
        Call::Payout { .. } | Call::Disburse { .. } | Call::Recover { .. } => Tell::Amounts,
        _ => Tell::Nothing,
    }
}

// A number of paths, at most as many as there are slots.
fn within_slots(count: usize) -> usize
    ensures { result ≡ rules.within_slots count }
{
    count.min(Engine::PATHS)
}

// What the first `number` paths offer.
fn offers_of(paths: [Path; Engine::PATHS], number: usize) -> Offers
    ensures count { result.count ≡ length (take number paths) }
    ensures few { result.count ≤ path_limit }
    ensures offers { take result.count result.slots ≡ map offer_of (take number paths) }
{
    let count = within_slots(number);
    let mut slots = [0u64; Engine::PATHS];
    for i in 0..count {
        let path = paths[i];
        let offer = path.offer;
        slots[i] = offer.0 as u64;
    }
    Offers { count, slots }
}

// The reply to a call, at the front of the buffer.
pub fn put_answer(
    out: &mut [u8],
    tell: Tell,
    outcome: Outcome,
    amounts: &[u64],
    answers: &[u64],
    results: &[u64],
) -> usize
    requires reply_room_in_bounds { reply_room ≤ length out.old }
    requires amounts_len { length amounts.now ≡ bidder_limit }
    requires results_len { length results.now ≡ path_answer_words }
    requires answer_bound { (bids_in outcome.answer ≤ bid_limit) × (bids_in outcome.answer * bid_answer_size ≤ length answers.now) }
    ensures { Put out.old 0 (rules.text_by tell outcome amounts.now answers.now results.now) out.new result }
{
    let answer = numbered(outcome.answer);
    let book = outcome.book;
    let slots_of_paths = book.paths;
    let offers = offers_of(slots_of_paths, book.path_count);
    let paths = offers.count;
    let slots = offers.slots;
    match tell {
        Tell::Nothing | Tell::Awards => journal_reply::put_reply(
            out,
            answer,
            Told::Nothing,
            &amounts[..0],
            answers,
            paths,
            results,
        ),
        Tell::Offers => journal_reply::put_reply(
            out,
            answer,
            Told::Listed,
            &slots[..paths],
            answers,
            paths,
            results,
        ),
        Tell::Amounts => journal_reply::put_reply(
            out,
            answer,
            Told::Listed,
            amounts,
            answers,
            paths,
            results,
        ),
    }
}
