// One line of a journal, run: read, made through the engine, and its reply put into a buffer.
#![tactic(auto)]

mod answers;

ghost use Rattle.std.specs.Prelude.{◌≡◌, [], ◌<◌, ◌≤◌, length, take, replicate};
ghost use Rattle.market.specs.Limits.{bidder_limit, path_answer_words, zones};
ghost use Rattle.text_numbers.specs.Put.{put_at};
ghost use Rattle.call_rules.specs.Rule.{lists};
ghost use Rattle.call_rules.specs.Steps.{leaving};
ghost use Rattle.engine.specs.Step.{step};
ghost use Rattle.journal_reply.specs.Replies.{reply_room};
ghost use Rattle.market.specs.Books.{with_front};
ghost use Rattle.journal_fresh_line.specs.FreshLines.{fresh_said};
ghost use Rattle.journal_call_line.specs.CallLine.{line_words, line_prices};
ghost use Rattle.journal_step.specs.LineStep as rules;

use answers::Tell;
use engine::calls::Call;
use journal_reply::Told;
use market::answer::{Outcome, Refusal, numbered};
use market::book::Book;
use market::engine::Engine;

// How many bytes a line may have before its byte 10.
pub const LINE_BYTES: usize = 65_536;

// Room for the words of a line, and for the reply to it.
pub const WORD_ROOM: usize = 32_768;

pub const REPLY_ROOM: usize = 65_536;

// A journal's state besides the register: whether a fresh book was answered, and the book.
#[derive(Clone, Copy)]
pub struct Journal {
    pub ready: bool,
    pub book: Book,
}

// The state after a line, and how many bytes were put into the buffer.
#[derive(Clone, Copy)]
pub struct Replied {
    pub journal: Journal,
    pub used: usize,
}

// One of the four columns of a list.
fn column(list: &[u32], k: usize) -> &[u32]
    requires { k < 4 }
    ensures { result.now ≡ rules.column k list.now }
{
    let from = k * Engine::BIDDERS;
    if list.len() <= from {
        return &list[..0];
    }
    if list.len() - from < Engine::BIDDERS {
        return &list[from..];
    }
    let to = from + Engine::BIDDERS;
    &list[from..to]
}

// A call through the engine.
fn call_lent(
    book: Book,
    register: &mut [u32],
    call: Call,
    list: &[u32],
    prices: &[i64],
    amounts: &mut [u64],
    answers: &mut [u64],
    results: &mut [u64],
    scratch: &mut [u32],
) -> Outcome
    ensures { leaving result register.new (lists amounts.new answers.new results.new)
        ≡ step book register.old call
        (rules.lent_with list.now prices.now amounts.old answers.old results.old
        scratch.old) }
{
    let provincial = column(list, 0);
    let export = column(list, 1);
    let meters = column(list, 2);
    let interties = column(list, 3);
    engine::call(
        book, register, call, list, list, prices, provincial, export, meters, interties, amounts,
        answers, results, scratch,
    )
}

// A call with a list for the answers of bids and a scratch, and the reply to it at the front of the buffer.
fn answer_lent(
    book: Book,
    register: &mut [u32],
    call: Call,
    list: &[u32],
    prices: &[i64],
    answers: &mut [u64],
    scratch: &mut [u32],
    out: &mut [u8],
) -> Replied
    requires { reply_room ≤ length out.old }
    ensures journal { result.journal
        ≡ (rules.called_by call
        (step book register.old call
        (rules.lent_with list.now prices.now (replicate bidder_limit 0) answers.old
        (replicate path_answer_words 0) scratch.old))).journal }
    ensures used { result.used
        ≡ length
        (rules.called_by call
        (step book register.old call
        (rules.lent_with list.now prices.now (replicate bidder_limit 0) answers.old
        (replicate path_answer_words 0) scratch.old))).text }
    ensures bytes { out.new
        ≡ put_at out.old 0
        (rules.called_by call
        (step book register.old call
        (rules.lent_with list.now prices.now (replicate bidder_limit 0) answers.old
        (replicate path_answer_words 0) scratch.old))).text }
    ensures register { register.new
        ≡ (rules.called_by call
        (step book register.old call
        (rules.lent_with list.now prices.now (replicate bidder_limit 0) answers.old
        (replicate path_answer_words 0) scratch.old))).register }
{
    let mut amounts = [0u64; Engine::BIDDERS];
    let mut paths = [0u64; Engine::PATH_ANSWER_WORDS];
    let outcome = call_lent(
        book,
        register,
        call,
        list,
        prices,
        &mut amounts,
        answers,
        &mut paths,
        scratch,
    );
    let tell = answers::tell_of(call);
    let used = answers::put_answer(out, tell, outcome, &amounts, answers, &paths);
    Replied {
        journal: Journal {
            ready: true,
            book: outcome.book,
        },
        used,
    }
}

// A call, and the reply to it at the front of the buffer. Only a round has a list for the answers of bids and a scratch, since it
// takes time to fill these with zeros.
fn answer_call(
    book: Book,
    register: &mut [u32],
    call: Call,
    list: &[u32],
    prices: &[i64],
    out: &mut [u8],
) -> Replied
    requires { reply_room ≤ length out.old }
    ensures journal { result.journal ≡ (rules.called_by call (rules.left_by book register.old call list.now prices.now)).journal }
    ensures used { result.used ≡ length (rules.called_by call (rules.left_by book register.old call list.now prices.now)).text }
    ensures bytes { out.new
        ≡ put_at out.old 0
        (rules.called_by call (rules.left_by book register.old call list.now prices.now)).text }
    ensures register { register.new ≡ (rules.called_by call (rules.left_by book register.old call list.now prices.now)).register }
{
    if answers::tell_of(call) == Tell::Awards {
        let mut bids = [0u64; Engine::BID_ANSWER_WORDS];
        let mut scratch = [0u32; Engine::SCRATCH_WORDS];
        return answer_lent(
            book,
            register,
            call,
            list,
            prices,
            &mut bids,
            &mut scratch,
            out,
        );
    }
    let mut no_bids = [0u64; 1];
    let mut no_scratch = [0u32; 1];
    answer_lent(
        book,
        register,
        call,
        list,
        prices,
        &mut no_bids[..0],
        &mut no_scratch[..0],
        out,
    )
}

// The reply to a malformed line, or to a call before there is a book; nothing is changed.
fn turn_away(journal: Journal, out: &mut [u8]) -> Replied
    requires { reply_room ≤ length out.old }
    ensures journal { result.journal ≡ journal }
    ensures used { result.used ≡ length rules.malformed_reply }
    ensures bytes { out.new ≡ put_at out.old 0 rules.malformed_reply }
{
    let none = [0u64; 1];
    let empty = &none[..0];
    let used = journal_reply::put_reply(
        out,
        Err(Refusal::Form.number()),
        Told::Nothing,
        empty,
        empty,
        0,
        empty,
    );
    Replied { journal, used }
}

// The line of a fresh book, from the text after its first word.
fn answer_fresh(journal: Journal, text: &[u8], out: &mut [u8]) -> Replied
    requires { reply_room ≤ length out.old }
    ensures journal { result.journal ≡ (rules.fresh_step journal [] (fresh_said text.now)).journal }
    ensures used { result.used ≡ length (rules.fresh_step journal [] (fresh_said text.now)).text }
    ensures bytes { out.new ≡ put_at out.old 0 (rules.fresh_step journal [] (fresh_said text.now)).text }
{
    let said = journal_fresh_line::fresh_said(text);
    if !said.present {
        return turn_away(journal, out);
    }
    let outcome = Engine::fresh(said.routes, said.count);
    let none = [0u64; 1];
    let empty = &none[..0];
    let answer = numbered(outcome.answer);
    let used = journal_reply::put_reply(out, answer, Told::Nothing, empty, empty, 0, empty);
    if outcome.answer.is_err() {
        return Replied { journal, used };
    }
    let book = outcome.book;
    Replied {
        journal: Journal { ready: true, book },
        used,
    }
}

// A call with its words and prices; it is turned away where there is no book.
fn answer_ready(
    journal: Journal,
    register: &mut [u32],
    call: Call,
    words: &[u32],
    prices: &[i64],
    out: &mut [u8],
) -> Replied
    requires { reply_room ≤ length out.old }
    ensures journal { result.journal ≡ (rules.call_step journal.ready journal register.old call words.now prices.now).journal }
    ensures used { result.used ≡ length (rules.call_step journal.ready journal register.old call words.now prices.now).text }
    ensures bytes { out.new
        ≡ put_at out.old 0
        (rules.call_step journal.ready journal register.old call words.now prices.now).text }
    ensures register { register.new ≡ (rules.call_step journal.ready journal register.old call words.now prices.now).register }
{
    if !journal.ready {
        return turn_away(journal, out);
    }
    answer_call(journal.book, register, call, words, prices, out)
}

// The line of a call.
fn answer_said(
    journal: Journal,
    register: &mut [u32],
    line: &[u8],
    words: &mut [u32],
    prices: &mut [i64],
    out: &mut [u8],
) -> Replied
    requires words_len { length words.old ≡ rules.word_room }
    requires prices_len { length prices.old ≡ zones }
    requires reply_room_in_bounds { reply_room ≤ length out.old }
    ensures journal { result.journal ≡ (rules.call_line_step journal register.old line.now).journal }
    ensures used { result.used ≡ length (rules.call_line_step journal register.old line.now).text }
    ensures bytes { out.new ≡ put_at out.old 0 (rules.call_line_step journal register.old line.now).text }
    ensures register { register.new ≡ (rules.call_line_step journal register.old line.now).register }
    ensures words { words.new ≡ with_front (line_words rules.word_room zones line.now) words.old }
    ensures prices { prices.new ≡ with_front (line_prices rules.word_room zones line.now) prices.old }
{
    let Some(said) = journal_call_line::line_said(line, words, prices) else {
        return turn_away(journal, out);
    };
    answer_ready(
        journal,
        register,
        said.call,
        &words[..said.words],
        &prices[..said.prices],
        out,
    )
}

// One line of a journal, without its byte 10: the state after it, and the reply to it at the front of the buffer. `words` and
// `prices` are room for the line's own lists.
pub fn answer_line(
    journal: Journal,
    register: &mut [u32],
    line: &[u8],
    words: &mut [u32],
    prices: &mut [i64],
    out: &mut [u8],
) -> Replied
    requires words_len { length words.old ≡ rules.word_room }
    requires prices_len { length prices.old ≡ zones }
    requires reply_room_in_bounds { reply_room ≤ length out.old }
    ensures journal { result.journal ≡ (rules.line_step journal register.old line.now).journal }
    ensures used { result.used ≡ length (rules.line_step journal register.old line.now).text }
    ensures bytes { out.new ≡ put_at out.old 0 (rules.line_step journal register.old line.now).text }
    ensures register { register.new ≡ (rules.line_step journal register.old line.now).register }
    ensures words { words.new ≡ with_front (rules.own_words line.now) words.old }
    ensures prices { prices.new ≡ with_front (rules.own_prices line.now) prices.old }
{
    if let Some(text) = journal_fields::after_word(line, b"fresh") {
        return answer_fresh(journal, text, out);
    }
    answer_said(journal, register, line, words, prices, out)
}
