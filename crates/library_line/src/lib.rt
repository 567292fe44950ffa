// A line of a journal run on the state that a program keeps in lent words.
#![tactic(auto)]

ghost use Rattle.std.specs.Prelude.{◌≡◌, ◌≤◌, length};
ghost use Rattle.library_book.specs.BookWords.{book_size, FitsBook};
ghost use Rattle.journal_reply.specs.Replies.{reply_room};
ghost use Rattle.journal_step.specs.LineStep.{word_room, line_step};
ghost use Rattle.library_line.specs.LibraryLine as rules;

use journal_step::{Journal, WORD_ROOM};
use market::engine::Engine;

// A line run on a journal whose book the words hold; the buffers are as long as stated.
pub fn run(
    journal: Journal,
    book: &mut [u64],
    account: &mut i64,
    register: &mut [u32],
    line: &[u8],
    room: &mut [u32],
    out: &mut [u8],
    used: &mut usize,
)
    requires book_size_in_bounds { book_size ≤ length book.old }
    requires word_room_in_bounds { word_room ≤ length room.old }
    requires reply_room_in_bounds { reply_room ≤ length out.old }
    ensures memory { rules.in_memory book.new account.new register.new room.new out.new used.new
        ≡ rules.memory_after
        (rules.in_memory book.old account.old register.old room.old out.old used.old)
        line.now (line_step journal register.old line.now) }
    ensures fits { FitsBook (line_step journal register.old line.now).journal.book }
{
    let mut prices = [0i64; Engine::ZONES];
    let replied = journal_step::answer_line(
        journal,
        register,
        line,
        &mut room[..WORD_ROOM],
        &mut prices,
        out,
    );
    let held = replied.journal.book;
    library_book::encode::encode_book(book, held);
    *account = held.account.0;
    *used = replied.used;
}
