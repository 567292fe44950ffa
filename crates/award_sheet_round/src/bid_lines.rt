// The lines of a round's bids.
ghost use Rattle.std.specs.Prelude.{◌++◌, ◌∷◌, [], ◌+◌, ◌*◌, ◌≤◌, ◌<◌, length};
ghost use Rattle.market.specs.Limits.{header_words, bid_limit, bid_answer_size, bid_answer_words};
ghost use Rattle.text_numbers.specs.Decimal.{decimal};
ghost use Rattle.text_numbers.specs.Put.{Put};
ghost use Rattle.text_fields.specs.Fields.{line, space, numbers_text};
ghost use Rattle.round_bids.specs.BidRefusals.{BidList};
ghost use Rattle.round_bids.specs.Bids.{bid_at, bids_of};
ghost use Rattle.call_round.specs.Answers.{mark_in, value_in};
ghost use Rattle.award_sheet_round.specs.RoundLines.{mark_word, award_bid_line, award_bid_lines};

use market::engine::Engine;

// Writes a bid's mark, and the space after it.
fn put_mark(out: &mut [u8], at: usize, mark: u64) -> usize
    requires { at + length (mark_word mark ++ (space ∷ [])) ≤ length out.old }
    ensures { Put out.old at (mark_word mark ++ (space ∷ [])) out.new result }
{
    if mark == Engine::ADMITTED as u64 {
        return text_writing::put_word(out, at, b"admitted", text_fields::SPACE);
    }
    text_writing::put_word(out, at, b"over", text_fields::SPACE)
}

// Writes a bid's mark and value, which end its line.
fn put_bid_answer(out: &mut [u8], at: usize, answers: &[u64], bid: usize) -> usize
    requires bid_answer_size_in_bounds { (bid + 1) * bid_answer_size ≤ length answers.now }
    requires bid_in_bounds { at + length (line (mark_word (mark_in answers.now bid) ∷ decimal (value_in answers.now bid) ∷ [])) ≤ length out.old }
    ensures { Put out.old at (line (mark_word (mark_in answers.now bid) ∷ decimal (value_in answers.now bid) ∷ []))
        out.new result }
{
    let row = bid * Engine::BID_ANSWER_SIZE;
    let marked = put_mark(out, at, answers[row]);
    text_writing::put_field(out, marked, answers[row + 1], text_fields::NEWLINE)
}

// Writes a bid's place among the bids, its bidder and its path.
fn put_bid_named(out: &mut [u8], at: usize, words: &[u32], place: usize, bid: usize) -> usize
    requires header_words_in_bounds { place + header_words ≤ length words.now }
    requires bid_lt_bid_limit { bid < bid_limit }
    requires place_in_bounds { at + length (numbers_text space ((bid + 1) ∷ (bid_at words.now place).bidder ∷ (bid_at words.now place).path ∷ []))
        ≤ length out.old }
    ensures { Put out.old at (numbers_text space ((bid + 1) ∷ (bid_at words.now place).bidder ∷ (bid_at words.now place).path ∷ []))
        out.new result }
{
    let header = round_bids::header_at(words, place);
    let row = [(bid + 1) as u64, header.bidder as u64, header.path as u64];
    text_writing::put_numbers(out, at, &row, text_fields::SPACE)
}

// Writes the line of a bid, whose words are at `place`.
fn put_bid_line(
    out: &mut [u8],
    at: usize,
    words: &[u32],
    place: usize,
    answers: &[u64],
    bid: usize,
) -> usize
    requires header_words_in_bounds { place + header_words ≤ length words.now }
    requires bid_lt_bid_limit { bid < bid_limit }
    requires bid_answer_words_in_bounds { bid_answer_words ≤ length answers.now }
    requires place_in_bounds { at + length (award_bid_line answers.now bid (bid_at words.now place)) ≤ length out.old }
    ensures { Put out.old at (award_bid_line answers.now bid (bid_at words.now place)) out.new result }
{
    let named = put_bid_named(out, at, words, place, bid);
    put_bid_answer(out, named, answers, bid)
}

// Writes the lines of all bids, in their order.
pub fn put_bid_lines(out: &mut [u8], at: usize, words: &[u32], answers: &[u64]) -> usize
    requires bid_list { BidList words.now }
    requires bid_answer_words_in_bounds { bid_answer_words ≤ length answers.now }
    requires words_in_bounds { at + length (award_bid_lines answers.now 0 (bids_of words.now)) ≤ length out.old }
    ensures { Put out.old at (award_bid_lines answers.now 0 (bids_of words.now)) out.new result }
{
    let mut end = at;
    for (k, place) in round_bids::places(words).enumerate() {
        end = put_bid_line(out, end, words, place, answers, k);
    }
    end
}
