// The whole award sheet of one round and of two, and the line that takes its place, each on a writer.
#![tactic(auto)]

pub mod refusals;
mod written;

ghost use Rattle.std.specs.Prelude.{◌≡◌, true, [], ◌∷◌, ◌≤◌, length};
ghost use Rattle.market.specs.Books.{every};
ghost use Rattle.market.specs.Limits.{path_limit};
ghost use Rattle.text_numbers.specs.Put.{Put};
ghost use Rattle.award_sheet_parts.specs.AwardSheet.{is_bidder, award_text};
ghost use Rattle.award_sheet.specs.Rounds.{made, Answered};

use market::book::Book;

// Writes the award sheet of one round at the front of the buffer, from the round's bids and answers, and from the book after it
// with the bidders listed.
pub fn put_one(
    out: &mut [u8],
    book: Book,
    listed: &[u32],
    bids: &[u32],
    answers: &[u64],
    results: &[u64],
) -> usize
    requires answered { Answered bids.now answers.now results.now }
    requires path_count_bound { book.path_count ≤ path_limit }
    requires listed_value { every is_bidder listed.now ≡ true }
    requires listed_in_bounds { length (award_text (made bids.now answers.now results.now ∷ []) book listed.now) ≤ length out.old }
    ensures { Put out.old 0 (award_text (made bids.now answers.now results.now ∷ []) book listed.now)
        out.new result }
{
    written::one(out, book, listed, bids, answers, results).filled()
}

// Writes the award sheet of two rounds at the front of the buffer.
pub fn put_two(
    out: &mut [u8],
    book: Book,
    listed: &[u32],
    bids: &[u32],
    answers: &[u64],
    results: &[u64],
    later_bids: &[u32],
    later_answers: &[u64],
    later_results: &[u64],
) -> usize
    requires answered { Answered bids.now answers.now results.now }
    requires answered_2 { Answered later_bids.now later_answers.now later_results.now }
    requires path_count_bound { book.path_count ≤ path_limit }
    requires listed_value { every is_bidder listed.now ≡ true }
    requires listed_in_bounds { length
        (award_text (made bids.now answers.now results.now ∷ made later_bids.now later_answers.now later_results.now ∷ []) book
        listed.now)
        ≤ length out.old }
    ensures { Put out.old 0
        (award_text
        (made bids.now answers.now results.now
        ∷ made later_bids.now later_answers.now later_results.now ∷ [])
        book listed.now)
        out.new result }
{
    written::two(
        out,
        book,
        listed,
        bids,
        answers,
        results,
        later_bids,
        later_answers,
        later_results,
    )
    .filled()
}
