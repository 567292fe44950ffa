// The refusals of a round that need no award.
ghost use Rattle.std.specs.Prelude.{◌≡◌, ◌++◌, ◌≤◌};
ghost use Rattle.market.specs.Answers.{first_of};
ghost use Rattle.market.specs.Limits.{path_limit};
ghost use Rattle.round_bids.specs.BidRefusals.{list_refusals};
ghost use Rattle.register.specs.Refusals.{register_refusals};
ghost use Rattle.call_round.specs.Round.{short_round_lists, desk_refusals, early_refusals};

use market::answer::Refusal;
use market::book::Book;
use market::engine::Engine;

// The refusals of the lent lists (1) and of the register (1 or 2).
fn check_lent(
    book: Book,
    words: &[u32],
    answers: &[u64],
    results: &[u64],
    scratch: &[u32],
) -> Result<(), Refusal>
    ensures { result ≡ first_of (short_round_lists answers.now results.now scratch.now ++ register_refusals book words.now) }
{
    if answers.len() < Engine::BID_ANSWER_WORDS {
        return Err(Refusal::ShortBuffer);
    }
    if results.len() < Engine::PATH_ANSWER_WORDS {
        return Err(Refusal::ShortBuffer);
    }
    if scratch.len() < Engine::SCRATCH_WORDS {
        return Err(Refusal::ShortBuffer);
    }
    register_sound::check(book, words)
}

// The refusals of the stage (20), of the length of the bid list (22) and of its first faulty bid.
fn check_list(book: Book, bids: &[u32]) -> Result<(), Refusal>
    requires { book.path_count ≤ path_limit }
    ensures { result ≡ first_of (desk_refusals book bids.now ++ list_refusals book.path_count bids.now) }
{
    let stage = book.stage;
    if book_parts::is_idle(stage) {
        return Err(Refusal::Stage);
    }
    if bids.len() > Engine::BID_LIST_WORDS {
        return Err(Refusal::BidList);
    }
    round_bid_refusals::check(bids, book.path_count)
}

// Whether a round is refused before its awards are known.
pub fn check(
    book: Book,
    words: &[u32],
    bids: &[u32],
    answers: &[u64],
    results: &[u64],
    scratch: &[u32],
) -> Result<(), Refusal>
    ensures { result ≡ first_of (early_refusals book words.now bids.now answers.now results.now scratch.now) }
{
    check_lent(book, words, answers, results, scratch)?;
    check_list(book, bids)
}
