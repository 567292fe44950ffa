// The lines of the bids that won.
ghost use Rattle.std.specs.Prelude.{◌+◌, ◌*◌, ◌≤◌, ◌<◌, length};
ghost use Rattle.market.specs.Limits.{header_words, bid_limit, bid_answer_words};
ghost use Rattle.text_numbers.specs.Put.{Put};
ghost use Rattle.round_bids.specs.BidRefusals.{BidList};
ghost use Rattle.round_bids.specs.Bids.{bid_at, bids_of};
ghost use Rattle.award_sheet_round.specs.RoundLines.{award_line, award_part, award_lines};

use market::engine::Engine;

// Writes the line of a bid that won, whose words are at `place`: bidder, path, MW, charge.
fn put_award_line(
    out: &mut [u8],
    at: usize,
    words: &[u32],
    place: usize,
    answers: &[u64],
    bid: usize,
) -> usize
    requires header_words_in_bounds { place + header_words ≤ length words.now }
    requires bid_lt_bid_limit { bid < bid_limit }
    requires bid_answer_words_in_bounds { bid_answer_words ≤ length answers.now }
    requires place_in_bounds { at + length (award_line answers.now bid (bid_at words.now place)) ≤ length out.old }
    ensures { Put out.old at (award_line answers.now bid (bid_at words.now place)) out.new result }
{
    let header = round_bids::header_at(words, place);
    let first = bid * Engine::BID_ANSWER_SIZE;
    let won = answers[first + 2];
    let charge = answers[first + 3];
    let row = [header.bidder as u64, header.path as u64, won, charge];
    text_writing::put_numbers(out, at, &row, text_fields::NEWLINE)
}

// Writes the line of a bid if it won, and nothing if it did not.
fn put_award(
    out: &mut [u8],
    at: usize,
    words: &[u32],
    place: usize,
    answers: &[u64],
    bid: usize,
) -> usize
    requires header_words_in_bounds { place + header_words ≤ length words.now }
    requires bid_lt_bid_limit { bid < bid_limit }
    requires bid_answer_words_in_bounds { bid_answer_words ≤ length answers.now }
    requires place_in_bounds { at + length (award_part answers.now bid (bid_at words.now place)) ≤ length out.old }
    ensures { Put out.old at (award_part answers.now bid (bid_at words.now place)) out.new result }
{
    if 0 < answers[bid * Engine::BID_ANSWER_SIZE + 2] {
        return put_award_line(out, at, words, place, answers, bid);
    }
    at
}

// Writes the lines of all bids that won, in the order of the bids.
pub fn put_award_lines(out: &mut [u8], at: usize, words: &[u32], answers: &[u64]) -> usize
    requires bid_list { BidList words.now }
    requires bid_answer_words_in_bounds { bid_answer_words ≤ length answers.now }
    requires words_in_bounds { at + length (award_lines answers.now 0 (bids_of words.now)) ≤ length out.old }
    ensures { Put out.old at (award_lines answers.now 0 (bids_of words.now)) out.new result }
{
    let mut end = at;
    for (k, place) in round_bids::places(words).enumerate() {
        end = put_award(out, end, words, place, answers, k);
    }
    end
}
