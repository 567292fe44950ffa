// A round on the award sheet: its bids, its paths and its awards, each after a line with their count.
#![tactic(auto)]

mod award_lines;
mod bid_lines;
mod path_lines;
mod walks;

ghost use Rattle.std.specs.Prelude.{◌+◌, ◌≤◌, length};
ghost use Rattle.market.specs.Limits.{path_limit, bid_answer_words, path_answer_words};
ghost use Rattle.text_numbers.specs.Put.{Put};
ghost use Rattle.round_bids.specs.BidRefusals.{BidList};
ghost use Rattle.round_bids.specs.Bids.{bids_of};
ghost use Rattle.award_sheet_round.specs.RoundLines.{bids_part, paths_part, awards_part, round_text};

// Writes how many bids there are, and their lines.
fn put_bids_part(out: &mut [u8], at: usize, words: &[u32], answers: &[u64]) -> usize
    requires bid_list { BidList words.now }
    requires bid_answer_words_in_bounds { bid_answer_words ≤ length answers.now }
    requires words_in_bounds { at + length (bids_part answers.now (bids_of words.now)) ≤ length out.old }
    ensures { Put out.old at (bids_part answers.now (bids_of words.now)) out.new result }
{
    let count = round_bids::bid_count(words);
    let next = text_writing::put_count(out, at, b"bids", count as u64);
    bid_lines::put_bid_lines(out, next, words, answers)
}

// Writes how many paths there are, and their lines.
fn put_paths_part(out: &mut [u8], at: usize, results: &[u64], paths: usize) -> usize
    requires paths_le_path_limit { paths ≤ path_limit }
    requires path_answer_words_in_bounds { path_answer_words ≤ length results.now }
    requires paths_in_bounds { at + length (paths_part results.now paths) ≤ length out.old }
    ensures { Put out.old at (paths_part results.now paths) out.new result }
{
    let next = text_writing::put_count(out, at, b"paths", paths as u64);
    path_lines::put_path_lines(out, next, results, paths)
}

// Writes how many bids won, and their lines.
fn put_awards_part(out: &mut [u8], at: usize, words: &[u32], answers: &[u64]) -> usize
    requires bid_list { BidList words.now }
    requires bid_answer_words_in_bounds { bid_answer_words ≤ length answers.now }
    requires words_in_bounds { at + length (awards_part answers.now (bids_of words.now)) ≤ length out.old }
    ensures { Put out.old at (awards_part answers.now (bids_of words.now)) out.new result }
{
    let count = walks::winner_count(words, answers);
    let next = text_writing::put_count(out, at, b"awards", count as u64);
    award_lines::put_award_lines(out, next, words, answers)
}

// Writes a round of these bids, with its answers for bids and for paths.
pub fn put_round(
    out: &mut [u8],
    at: usize,
    bids: &[u32],
    answers: &[u64],
    results: &[u64],
    paths: usize,
) -> usize
    requires bid_list { BidList bids.now }
    requires bid_answer_words_in_bounds { bid_answer_words ≤ length answers.now }
    requires path_answer_words_in_bounds { path_answer_words ≤ length results.now }
    requires paths_le_path_limit { paths ≤ path_limit }
    requires results_in_bounds { at + length (round_text paths (record { bids = bids_of bids.now; answers = answers.now; results = results.now }))
        ≤ length out.old }
    ensures { Put out.old at
        (round_text paths (record { bids = bids_of bids.entry.now; answers = answers.now; results = results.now })) out.new
        result }
{
    let offers = put_bids_part(out, at, bids, answers);
    let awards = put_paths_part(out, offers, results, paths);
    put_awards_part(out, awards, bids, answers)
}
