// Round: a round of an auction whole, with its refusals, made of the parts above.
#![tactic(auto)]

mod early;
mod effect;
mod stage;
mod worked;

ghost use Rattle.std.specs.Prelude.{◌≡◌, ◌++◌, ◌+◌, ◌≤◌, length};
ghost use Rattle.market.specs.Limits.{entry_limit, bid_answer_words, path_answer_words};
ghost use Rattle.round_bids.specs.Bids.{bids_of};
ghost use Rattle.market.specs.Books.{with_front};
ghost use Rattle.register.specs.Refusals.{counted_entries, LentRegister};
ghost use Rattle.register.specs.Words.{entries_written};
ghost use Rattle.call_rules.specs.Steps.{outcome_of, words_after, to_answers, to_results, list_after, ScratchAfter};
ghost use Rattle.call_round.specs.Ready.{RightList, WorkedOut, AwardedOut};
ghost use Rattle.call_round.specs.Round as rules;

use market::answer::{Answer, Outcome, Refusal};
use market::book::Book;
use market::engine::Engine;
use round_awards::Awarded;
use worked::Worked;

// The round with these awards, where nothing refuses it: the winners' entries, the answers, and the book after it.
fn answered(
    book: Book,
    words: &mut [u32],
    bids: &[u32],
    worked: Worked,
    awarded: Awarded,
    answers: &mut [u64],
    results: &mut [u64],
) -> Outcome
    requires lent_register { LentRegister book words.old }
    requires bid_answer_words_in_bounds { bid_answer_words ≤ length answers.old }
    requires path_answer_words_in_bounds { path_answer_words ≤ length results.old }
    requires right_list { RightList book bids.now }
    requires worked_out { WorkedOut book bids.now worked }
    requires awarded_out { AwardedOut worked bids.now awarded }
    requires bids_bound { book.entries + length (rules.entries_now book (bids_of bids.now)) ≤ entry_limit }
    ensures outcome { result ≡ rules.round_outcome book (bids_of bids.now) }
    ensures register { words.new
        ≡ entries_written words.old (counted_entries book words.old ++ rules.entries_now book (bids_of bids.now)) }
    ensures bids { answers.new ≡ with_front (rules.bid_answers_now book (bids_of bids.now)) answers.old }
    ensures paths { results.new ≡ with_front (rules.path_answers_now book (bids_of bids.now)) results.old }
{
    let count = effect::add_winners(book, bids, awarded, words);
    effect::write_answers(book.path_count, bids, worked, awarded, answers, results);
    Outcome {
        answer: Ok(Answer::Bids(worked.bids)),
        book: effect::book_with(book, bids, awarded, count),
    }
}

// A round of the open auction. `words` is the register, `bids` the list of bids, `answers` and `results` the lists for the
// answers of bids and paths, and `scratch` where the laminations are put in order. Nothing that is lent is touched before it
// is known that nothing is refused: where the register has room for every bid the awards are worked out in the scratch, and
// otherwise apart from it. What an answered round leaves in the scratch is open (rule 7.19).
pub fn round(
    book: Book,
    words: &mut [u32],
    bids: &[u32],
    answers: &mut [u64],
    results: &mut [u64],
    scratch: &mut [u32],
) -> Outcome
    ensures outcome { result
        ≡ outcome_of (rules.round bids.now answers.old results.old scratch.old)
        book words.old }
    ensures register { words.new
        ≡ words_after (rules.round bids.now answers.old results.old scratch.old)
        book words.old }
    ensures bids { answers.new
        ≡ list_after to_answers (rules.round bids.now answers.old results.old scratch.old)
        book words.old answers.old }
    ensures paths { results.new
        ≡ list_after to_results (rules.round bids.now answers.old results.old scratch.old)
        book words.old results.old }
    ensures scratch { ScratchAfter
        (rules.round bids.now answers.old results.old scratch.old)
        book words.old scratch.old scratch.new }
{
    if let Err(refusal) = early::check(book, words, bids, answers, results, scratch) {
        return Outcome {
            answer: Err(refusal),
            book,
        };
    }
    let worked = worked::work_out(book, bids);
    let sure = worked.bids <= Engine::ENTRIES - book.entries;
    let awarded = worked::award(bids, worked, sure, scratch);
    let won = awarded.won;
    if !round_entries::has_room(book.entries, won, worked.bids) {
        return Outcome {
            answer: Err(Refusal::RegisterFull),
            book,
        };
    }
    answered(book, words, bids, worked, awarded, answers, results)
}
