// The rounds of a sheet, from the book that its open leaves, and the output after them.
#![tactic(auto)]

ghost use Rattle.std.specs.Prelude.{◌≡◌, true, [], ◌∷◌, ◌≤◌, length};
ghost use Rattle.market.specs.Answers.{answered};
ghost use Rattle.market.specs.Books.{every};
ghost use Rattle.market.specs.Limits.{award_sheet_bytes, bidder_limit};
ghost use Rattle.text_numbers.specs.Put.{Put};
ghost use Rattle.call_rules.specs.Steps.{outcome_of, words_after, list_after, to_answers, to_results};
ghost use Rattle.call_round.specs.Round.{round};
ghost use Rattle.call_rules.specs.State.{SoundMemory};
ghost use Rattle.sheet_calls.specs.Calls.{empty_register};
ghost use Rattle.award_sheet_parts.specs.AwardSheet.{is_bidder};
ghost use Rattle.sheet_rounds.specs.Rounds.{scratch_lent, output_from};

use award_sheet::refusals;
use market::answer::{Outcome, numbered};
use market::book::Book;
use market::engine::Engine;

// A round with a scratch of its own.
fn round_of(
    book: Book,
    words: &mut [u32],
    bids: &[u32],
    answers: &mut [u64],
    results: &mut [u64],
) -> Outcome
    ensures outcome { result ≡ outcome_of (round bids.now answers.old results.old scratch_lent) book words.old }
    ensures register { words.new
        ≡ words_after (round bids.now answers.old results.old scratch_lent) book words.old }
    ensures bids { answers.new
        ≡ list_after to_answers (round bids.now answers.old results.old scratch_lent) book words.old
        answers.old }
    ensures paths { results.new
        ≡ list_after to_results (round bids.now answers.old results.old scratch_lent) book words.old
        results.old }
{
    let mut scratch = [0u32; Engine::SCRATCH_WORDS];
    call_round::round(book, words, bids, answers, results, &mut scratch)
}

// Writes the output of a short auction with these bids, for the bidders listed.
pub fn short_output(book: Book, bids: &[u32], listed: &[u32], out: &mut [u8]) -> usize
    requires sound_memory { SoundMemory book empty_register }
    requires listed_value { every is_bidder listed.now ≡ true }
    requires listed_len_bound { length listed.now ≤ bidder_limit }
    requires award_sheet_bytes_in_bounds { award_sheet_bytes ≤ length out.old }
    ensures { Put out.old 0 (output_from (answered book) listed.now (bids.now ∷ [])) out.new result }
{
    let mut words = [0u32; Engine::REGISTER_WORDS];
    let mut answers = [0u64; Engine::BID_ANSWER_WORDS];
    let mut results = [0u64; Engine::PATH_ANSWER_WORDS];
    let outcome = round_of(book, &mut words, bids, &mut answers, &mut results);
    if let Err(number) = numbered(outcome.answer) {
        return refusals::refused(out, number);
    }
    award_sheet::put_one(out, outcome.book, listed, bids, &answers, &results)
}

// Writes the output of a long auction, with the bids of its first round and the later ones of its second.
pub fn long_output(book: Book, bids: &[u32], later: &[u32], listed: &[u32], out: &mut [u8]) -> usize
    requires sound_memory { SoundMemory book empty_register }
    requires listed_value { every is_bidder listed.now ≡ true }
    requires listed_len_bound { length listed.now ≤ bidder_limit }
    requires award_sheet_bytes_in_bounds { award_sheet_bytes ≤ length out.old }
    ensures { Put out.old 0 (output_from (answered book) listed.now (bids.now ∷ later.now ∷ [])) out.new result }
{
    let mut words = [0u32; Engine::REGISTER_WORDS];
    let mut answers = [0u64; Engine::BID_ANSWER_WORDS];
    let mut results = [0u64; Engine::PATH_ANSWER_WORDS];
    let first = round_of(book, &mut words, bids, &mut answers, &mut results);
    if let Err(number) = numbered(first.answer) {
        return refusals::refused(out, number);
    }
    let mut later_answers = [0u64; Engine::BID_ANSWER_WORDS];
    let mut later_results = [0u64; Engine::PATH_ANSWER_WORDS];
    let second = round_of(
        first.book,
        &mut words,
        later,
        &mut later_answers,
        &mut later_results,
    );
    if let Err(number) = numbered(second.answer) {
        return refusals::refused(out, number);
    }
    award_sheet::put_two(
        out,
        second.book,
        listed,
        bids,
        &answers,
        &results,
        later,
        &later_answers,
        &later_results,
    )
}
