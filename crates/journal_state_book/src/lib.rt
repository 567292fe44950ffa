// What a journal prints of the engine and of the book, each line at the front of the buffer.
#![tactic(auto)]

ghost use Rattle.std.specs.Prelude.{◌+◌, ◌≤◌, length};
ghost use Rattle.text_numbers.specs.Put.{Put};
ghost use Rattle.journal_state_book.specs.States.{line_room, engine_text, account_text, open_text, stage_text, book_text};

use market::book::{Kind, Period, Stage};
use market::engine::Engine;
use market::units::Balance;

// The engine's own release and rule edition.
pub fn put_engine(out: &mut [u8]) -> usize
    requires { line_room ≤ length out.old }
    ensures { Put out.old 0 engine_text out.new result }
{
    let release = [Engine::RELEASE as u64];
    let rules = [Engine::RULES as u64];
    let next = journal_rows::put_row(out, 0, b"# engine release", &release);
    journal_rows::put_last_row(out, next, b" rules", &rules)
}

// The account, with a minus sign before a balance below 0.
fn put_account(out: &mut [u8], account: Balance) -> usize
    requires { line_room ≤ length out.old }
    ensures { Put out.old 0 (account_text account.0) out.new result }
{
    let size = book_account::magnitude(account.0);
    if book_account::below_zero(account) {
        let next = text_numbers::put_bytes(out, 0, b"# book account -");
        return text_numbers::put_number(out, next, size);
    }
    let row = [size];
    journal_rows::put_row(out, 0, b"# book account", &row)
}

// An open auction: its kind, the next round, the period.
fn put_open(out: &mut [u8], at: usize, kind: Kind, round: u32, period: Period) -> usize
    requires { at + length (open_text kind round period) ≤ length out.old }
    ensures { Put out.old at (open_text kind round period) out.new result }
{
    let row = [round as u64, period.first.0 as u64, period.last.0 as u64];
    match kind {
        Kind::Short => journal_rows::put_row(out, at, b" open S", &row),
        Kind::Long => journal_rows::put_row(out, at, b" open L", &row),
    }
}

// The stage.
fn put_stage(out: &mut [u8], at: usize, stage: Stage) -> usize
    requires { at + length (stage_text stage) ≤ length out.old }
    ensures { Put out.old at (stage_text stage) out.new result }
{
    match stage {
        Stage::Idle => text_numbers::put_bytes(out, at, b" idle"),
        Stage::Open {
            kind,
            round,
            period,
        } => put_open(out, at, kind, round, period),
    }
}

// The book: its account, the register's count, the stage.
pub fn put_book(out: &mut [u8], account: Balance, entries: usize, stage: Stage) -> usize
    requires { line_room ≤ length out.old }
    ensures { Put out.old 0 (book_text account.0 entries stage) out.new result }
{
    let owned = put_account(out, account);
    let row = [entries as u64];
    let counted = journal_rows::put_row(out, owned, b" count", &row);
    let end = put_stage(out, counted, stage);
    text_numbers::put_bytes(out, end, b"\n")
}
