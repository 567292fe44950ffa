// How many bids of a round won.
ghost use Rattle.std.specs.Prelude.{◌≡◌, ◌+◌, ◌*◌, ◌≤◌, ltb, length};
ghost use Rattle.market.specs.Limits.{bid_answer_size, bid_answer_words};
ghost use Rattle.round_bids.specs.BidRefusals.{BidList};
ghost use Rattle.round_bids.specs.Bids.{bids_of};
ghost use Rattle.call_round.specs.Answers.{won_in};
ghost use Rattle.award_sheet_round.specs.RoundLines.{winners};

use market::engine::Engine;

// Whether a bid won.
fn won(answers: &[u64], bid: usize) -> bool
    requires { (bid + 1) * bid_answer_size ≤ length answers.now }
    ensures { result ≡ ltb 0 (won_in answers.now bid) }
{
    0 < answers[bid * Engine::BID_ANSWER_SIZE + 2]
}

// How many bids won.
pub fn winner_count(words: &[u32], answers: &[u64]) -> usize
    requires bid_list { BidList words.now }
    requires bid_answer_words_in_bounds { bid_answer_words ≤ length answers.now }
    ensures { result ≡ winners answers.now 0 (bids_of words.now) }
{
    (0..round_bids::bid_count(words))
        .filter(|bid| won(answers, *bid))
        .count()
}
