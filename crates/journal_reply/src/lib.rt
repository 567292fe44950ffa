// The reply that a journal prints to each call.
#![tactic(auto)]

ghost use Rattle.std.specs.Prelude.{◌+◌, ◌*◌, ◌≤◌, length};
ghost use Rattle.market.specs.Answers.{bids_in};
ghost use Rattle.market.specs.Limits.{bidder_limit, bid_limit, bid_answer_size, path_limit, path_answer_size};
ghost use Rattle.text_numbers.specs.Put.{Put};
ghost use Rattle.journal_reply.specs.Replies.{reply_room, path_rows_text, round_reply, done_text, reply_text};

use market::answer::Answer;
use market::engine::Engine;

// What an answered call tells besides its number: nothing, or a list.
#[derive(Clone, Copy)]
pub enum Told {
    Nothing,
    Listed,
}

// The rows of a round's paths: the first after a slash, each other after a bar.
fn put_path_rows(out: &mut [u8], at: usize, results: &[u64], paths: usize) -> usize
    requires path_answer_size_in_bounds { paths * path_answer_size ≤ length results.now }
    requires results_in_bounds { at + length (path_rows_text paths results.now) ≤ length out.old }
    ensures { Put out.old at (path_rows_text paths results.now) out.new result }
{
    if paths == 0 {
        return at;
    }
    let next = journal_rows::put_row(out, at, b" /", &results[..Engine::PATH_ANSWER_SIZE]);
    journal_rows::put_rows(
        out,
        next,
        b" |",
        &results[Engine::PATH_ANSWER_SIZE..],
        Engine::PATH_ANSWER_SIZE,
        paths - 1,
    )
}

// The reply to a round.
fn put_round(out: &mut [u8], bids: usize, answers: &[u64], paths: usize, results: &[u64]) -> usize
    requires bid_answer_size_in_bounds { bids * bid_answer_size ≤ length answers.now }
    requires path_answer_size_in_bounds { paths * path_answer_size ≤ length results.now }
    requires results_in_bounds { length (round_reply bids answers.now paths results.now) ≤ length out.old }
    ensures { Put out.old 0 (round_reply bids answers.now paths results.now) out.new result }
{
    let row = [bids as u64];
    let counted = journal_rows::put_row(out, 0, b"= ok", &row);
    let answered = journal_rows::put_rows(
        out,
        counted,
        b" |",
        answers,
        Engine::BID_ANSWER_SIZE,
        bids,
    );
    let end = put_path_rows(out, answered, results, paths);
    text_numbers::put_bytes(out, end, b"\n")
}

// The reply to a call that is done.
fn put_done(out: &mut [u8], told: Told, list: &[u64]) -> usize
    requires { length (done_text told list.now) ≤ length out.old }
    ensures { Put out.old 0 (done_text told list.now) out.new result }
{
    match told {
        Told::Nothing => journal_rows::put_last_row(out, 0, b"= ok", &list[..0]),
        Told::Listed => journal_rows::put_last_row(out, 0, b"= ok", list),
    }
}

// The reply to a call that answered this, or was refused with a number, at the front of the buffer; returns the place after it.
pub fn put_reply(
    out: &mut [u8],
    answer: Result<Answer, u32>,
    told: Told,
    list: &[u64],
    answers: &[u64],
    paths: usize,
    results: &[u64],
) -> usize
    requires reply_room_in_bounds { reply_room ≤ length out.old }
    requires list_len_bound { length list.now ≤ bidder_limit }
    requires answer_bound { (bids_in answer ≤ bid_limit) × (bids_in answer * bid_answer_size ≤ length answers.now) }
    requires paths_le_path_limit { (paths ≤ path_limit) × (paths * path_answer_size ≤ length results.now) }
    ensures { Put out.old 0 (reply_text answer told list.now answers.now paths results.now) out.new result }
{
    match answer {
        Err(number) => {
            let row = [number as u64];
            journal_rows::put_last_row(out, 0, b"= refused", &row)
        }
        Ok(answered) => match answered {
            Answer::Done => put_done(out, told, list),
            Answer::Drawn(draw) => {
                let row = [draw.0];
                journal_rows::put_last_row(out, 0, b"= ok", &row)
            }
            Answer::Bids(bids) => put_round(out, bids, answers, paths, results),
        },
    }
}
