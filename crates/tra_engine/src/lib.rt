// The functions of the static library for C and Rust programs; each takes any arguments.
#![tactic(auto)]

ghost use Rattle.std.specs.Prelude.{◌≡◌};
ghost use Rattle.market.specs.Limits.{release, rule_edition};
ghost use Rattle.sheet_output.specs.Output.{answer_to, buffer_after};
ghost use Rattle.library_line.specs.LibraryLine as kept;
ghost use Rattle.tra_engine.specs.Library as rules;

use journal_step::{Journal, LINE_BYTES, REPLY_ROOM, WORD_ROOM};
use library_book::BOOK_WORDS;
use market::answer::Refusal;
use market::engine::Engine;

// What is returned where the work was done; no refusal has this number.
const DONE: u32 = 0;

// The engine's release.
#[unsafe(no_mangle)]
pub extern "C" fn tra_release() -> u32
    ensures { result ≡ release }
{
    Engine::RELEASE
}

// The edition of the rules.
#[unsafe(no_mangle)]
pub extern "C" fn tra_rules() -> u32
    ensures { result ≡ rule_edition }
{
    Engine::RULES
}

// The output of a sheet, written to the front of the buffer, and the count of its bytes, written to `used`; or the refusal of a
// short buffer, with all as it was.
#[unsafe(no_mangle)]
pub extern "C" fn tra_sheet(sheet: &[u8], out: &mut [u8], used: &mut usize) -> u32
    ensures number { result ≡ rules.reply_number (answer_to sheet.now out.old) }
    ensures buffer { out.new ≡ buffer_after sheet.now out.old }
    ensures count { used.new ≡ rules.reply_count (answer_to sheet.now out.old) used.old }
{
    match sheet_output::output(sheet, out) {
        Ok(count) => {
            *used = count;
            DONE
        }
        Err(refusal) => refusal.number(),
    }
}

// A line as it is taken: one that is too long is taken as the empty one.
fn taken(line: &[u8]) -> &[u8]
    ensures { result.now ≡ kept.taken line.now }
{
    if LINE_BYTES < line.len() {
        return &line[..0];
    }
    line
}

// Whether a buffer is shorter than stated.
fn short(book: &[u64], register: &[u32], room: &[u32], out: &[u8]) -> bool
    ensures { result ≡ kept.short book.now register.now room.now out.now }
{
    (book.len() < BOOK_WORDS)
        | ((register.len() < Engine::REGISTER_WORDS)
            | ((room.len() < WORD_ROOM) | (out.len() < REPLY_ROOM)))
}

// One line of a journal, without its byte 10, on the state that the program keeps: the book's words, the account and the
// register. The reply goes to the front of `out`, and the count of its bytes to `used`. The line is refused with 1 where a buffer
// is short and with 2 where the words encode no book, with all as it was. After a line that is answered the words hold the
// journal's state.
#[unsafe(no_mangle)]
pub extern "C" fn tra_line(
    book: &mut [u64],
    account: &mut i64,
    register: &mut [u32],
    line: &[u8],
    room: &mut [u32],
    out: &mut [u8],
    used: &mut usize,
) -> u32
    ensures number { result
        ≡ (kept.line_on
        (kept.in_memory book.old account.old register.old room.old out.old used.old)
        line.now).number }
    ensures memory { kept.in_memory book.new account.new register.new room.new out.new used.new
        ≡ (kept.line_on
        (kept.in_memory book.old account.old register.old room.old out.old used.old)
        line.now).memory }
    ensures state { result ≡ 0
        → kept.HeldIn book.new account.new
        (kept.step_on
        (kept.in_memory book.old account.old register.old room.old out.old used.old)
        (kept.taken line.now)).journal }
{
    if short(book, register, room, out) {
        return Refusal::ShortBuffer.number();
    }
    if !library_book::valid::encodes_book(book) {
        return Refusal::Unsound.number();
    }
    let balance = *account;
    let held = library_book::decode::book_in(book, balance);
    let ready = held.path_count != 0;
    library_line::run(
        Journal { ready, book: held },
        book,
        account,
        register,
        taken(line),
        room,
        out,
        used,
    );
    DONE
}
