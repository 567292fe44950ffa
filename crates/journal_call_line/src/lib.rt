// The lines of a journal's calls: what each says, read into a call and its lists.
#![tactic(auto)]

mod heads;
mod plain;

ghost use Rattle.std.specs.Prelude.{List, ◌≡◌, ℕ, ℤ, length};
ghost use Rattle.market.specs.Books.{with_front};
ghost use Rattle.journal_call_line.specs.CallLine as rules;

use engine::calls::Call;
use journal_fields::WIDE_TOP;
use market::engine::Engine;
use market::units::Cents;

// How many words a call's four columns have.
pub const COLUMN_WORDS: usize = 4 * Engine::BIDDERS;

// The call that a line says, and how many words and how many prices its lists have.
#[derive(Clone, Copy)]
pub struct CallLine {
    pub call: Call,
    pub words: usize,
    pub prices: usize,
}

fn open_line(text: &[u8], words: &mut [u32]) -> Option<CallLine>
    ensures said { result ≡ rules.said_of (rules.open_read (length words.old) text.now) }
    ensures list { words.new ≡ with_front (rules.open_read (length words.old) text.now).words words.old }
{
    let head = heads::opening_line(text);
    let run = journal_number_lists::words_at(text, head.used, words);
    if !(head.present
        & (head.used + run.used == text.len())
        & (run.count % Engine::QUANTITY_WORDS == 0))
    {
        return None;
    }
    Some(CallLine {
        call: Call::Open {
            kind: head.kind,
            period: head.period,
        },
        words: run.count,
        prices: 0,
    })
}

fn round_line(text: &[u8], words: &mut [u32]) -> Option<CallLine>
    ensures said { result ≡ rules.said_of (rules.round_read (length words.old) text.now) }
    ensures list { words.new ≡ with_front (rules.round_read (length words.old) text.now).words words.old }
{
    let run = journal_number_lists::words_at(text, 0, words);
    if 0 + run.used != text.len() {
        return None;
    }
    Some(CallLine {
        call: Call::Round,
        words: run.count,
        prices: 0,
    })
}

fn payout_line(text: &[u8], prices: &mut [i64]) -> Option<CallLine>
    ensures said { result ≡ rules.said_of (rules.payout_read (length prices.old) text.now) }
    ensures list { prices.new ≡ with_front (rules.payout_read (length prices.old) text.now).prices prices.old }
{
    let head = heads::hour_line(text);
    let run = journal_number_lists::prices_at(text, head.used, prices);
    if !(head.present & (head.used + run.used == text.len()) & (run.count == Engine::ZONES)) {
        return None;
    }
    Some(CallLine {
        call: Call::Payout {
            day: head.day,
            failed: head.failed,
        },
        words: 0,
        prices: run.count,
    })
}

fn share_call(disburse: bool, total: u64) -> Call
    ensures { result ≡ rules.share_call disburse total }
{
    if disburse {
        return Call::Disburse {
            total: Cents(total),
        };
    }
    Call::Recover {
        total: Cents(total),
    }
}

// A disbursement or a recovery.
fn share_line(text: &[u8], words: &mut [u32], disburse: bool) -> Option<CallLine>
    ensures said { result ≡ rules.said_of (rules.share_read (length words.old) disburse text.now) }
    ensures list { words.new ≡ with_front (rules.share_read (length words.old) disburse text.now).words words.old }
{
    let total = journal_fields::number_at(text, 0, WIDE_TOP);
    let run = journal_number_lists::words_at(text, total.used, words);
    if !((total.used != 0) & (total.used + run.used == text.len()) & (run.count == COLUMN_WORDS)) {
        return None;
    }
    Some(CallLine {
        call: share_call(disburse, total.value),
        words: run.count,
        prices: 0,
    })
}

// The line of a call that has no list, whatever the lists are.
fn plain_line(line: &[u8]) -> Option<CallLine>
    ensures { (words : List ℕ) (prices : List ℤ) → rules.ReadInto (rules.read_by rules.plain_forms line.now) result words words prices prices }
{
    if let Some(text) = journal_fields::after_word(line, b"deposit") {
        return plain::account_line(text, true);
    }
    if let Some(text) = journal_fields::after_word(line, b"withdraw") {
        return plain::account_line(text, false);
    }
    if let Some(text) = journal_fields::after_word(line, b"pay") {
        return plain::pay_line(text);
    }
    if let Some(text) = journal_fields::after_word(line, b"default") {
        return plain::default_line(text);
    }
    if let Some(text) = journal_fields::after_word(line, b"retire") {
        return plain::retire_line(text);
    }
    if let Some(text) = journal_fields::after_word(line, b"rent") {
        return plain::rent_line(text);
    }
    None
}

// What a line says; its words and its prices are put at the front of the two lists. `payout` is tried before `pay`, with which it
// begins.
#[tactic(auto, unfolding(crate::specs::CallLine::line_read))]
pub fn line_said(line: &[u8], words: &mut [u32], prices: &mut [i64]) -> Option<CallLine>
    ensures { rules.ReadInto (rules.line_read (length words.old) (length prices.old) line.now) result
        words.old words.new prices.old prices.new }
{
    if let Some(text) = journal_fields::after_word(line, b"open") {
        return open_line(text, words);
    }
    if let Some(text) = journal_fields::after_word(line, b"round") {
        return round_line(text, words);
    }
    if let Some(text) = journal_fields::after_word(line, b"payout") {
        return payout_line(text, prices);
    }
    if let Some(text) = journal_fields::after_word(line, b"disburse") {
        return share_line(text, words, true);
    }
    if let Some(text) = journal_fields::after_word(line, b"recover") {
        return share_line(text, words, false);
    }
    plain_line(line)
}
