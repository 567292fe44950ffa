// Journals run and printed: the reply to each line of a text, and then the state.
// `journal_step::answer_line` makes the replies; these functions only find the lines and write.
#![tactic(auto)]

ghost use Rattle.std.specs.Prelude.{◌≤◌, IfOk, length};
ghost use Rattle.journal_state_book.specs.States.{line_room};

use journal_step::{Journal, LINE_BYTES};
use market::book::{Book, Direction, Route};
use market::engine::Engine;
use std::io;

const INPUT_BYTES: usize = LINE_BYTES + 1;

const READS: u64 = u64::MAX;

// A journal that is run: its state, whether its next line began with bytes that were passed over, and the lists that its lines
// are lent.
#[derive(Drop)]
struct Run {
    journal: Journal,
    over: bool,
    register: [u32; Engine::REGISTER_WORDS],
    words: [u32; journal_step::WORD_ROOM],
    prices: [i64; Engine::ZONES],
    out: [u8; journal_step::REPLY_ROOM],
}

impl Run {
    // No book yet: in its place is a book without paths.
    fn begin() -> Run {
        let none = Route {
            direction: Direction::Export,
            zone: 0,
        };
        let book = Engine::fresh([none; Engine::PATHS], 0).book;
        Run {
            journal: Journal { ready: false, book },
            over: false,
            register: [0; Engine::REGISTER_WORDS],
            words: [0; journal_step::WORD_ROOM],
            prices: [0; Engine::ZONES],
            out: [0; journal_step::REPLY_ROOM],
        }
    }

    // What is read of a line: nothing of one that is too long.
    fn part_read<'a>(&self, line: &'a [u8]) -> &'a [u8] {
        if self.over || LINE_BYTES < line.len() {
            return &[];
        }
        line
    }

    // One line, and the reply to it. A line that is too long is malformed, as an empty one is.
    fn run_line(&mut self, rt: &impl Print, line: &[u8]) -> io::Result<()> {
        let read = self.part_read(line);
        let replied = journal_step::answer_line(
            self.journal,
            &mut self.register,
            read,
            &mut self.words,
            &mut self.prices,
            &mut self.out,
        );
        self.journal = replied.journal;
        self.over = false;
        write(rt, &self.out, replied.used)
    }

    // The whole lines of a text, one after the other; returns how many bytes are behind them.
    fn run_lines(&mut self, rt: &impl Print, text: &[u8]) -> io::Result<usize>
        ensures { IfOk result (λ rest. rest ≤ length text.now) }
    {
        let mut rest = text;
        while let Some(end) = case_files::line_end(rest) {
            self.run_line(rt, &rest[..end])?;
            rest = &rest[end + 1..];
        }
        Ok(rest.len())
    }

    // The end of a journal: a last line without its byte 10, where there is one, is malformed; then the state.
    fn finish(&mut self, rt: &impl Print, rest: usize) -> io::Result<()> {
        if self.over || 0 < rest {
            self.run_line(rt, b"")?;
        }
        show_state(rt, self.journal, &self.register)
    }
}

// Writes the first `used` bytes of a buffer.
fn write(rt: &impl Print, out: &[u8], used: usize) -> io::Result<()> {
    if used <= out.len() {
        rt.write_all(&out[..used])?;
    }
    Ok(())
}

// The line that names the engine.
fn show_engine(rt: &impl Print) -> io::Result<()> {
    let mut out = [0; 256];
    let used = journal_state_book::put_engine(&mut out);
    write(rt, &out, used)
}

fn show_paths(rt: &impl Print, book: Book, out: &mut [u8]) -> io::Result<()>
    requires { line_room ≤ length out.old }
{
    for (i, path) in book.paths.iter().take(book.path_count).enumerate() {
        let used = journal_state_lists::put_path(out, i, *path);
        write(rt, out, used)?;
    }
    Ok(())
}

fn show_bidders(rt: &impl Print, book: Book, out: &mut [u8]) -> io::Result<()>
    requires { line_room ≤ length out.old }
{
    for (i, bidder) in book.bidders.iter().enumerate() {
        let used = journal_state_lists::put_bidder(out, i, *bidder);
        write(rt, out, used)?;
    }
    Ok(())
}

// The entries that are counted.
fn show_entries(rt: &impl Print, count: usize, register: &[u32], out: &mut [u8]) -> io::Result<()>
    requires { line_room ≤ length out.old }
{
    for i in 0..count.min(register.len() / Engine::ENTRY_WORDS) {
        let used = journal_state_lists::put_entry(out, i, register::read(register, i));
        write(rt, out, used)?;
    }
    Ok(())
}

// The state, where there is a book.
fn show_state(rt: &impl Print, journal: Journal, register: &[u32]) -> io::Result<()> {
    if !journal.ready {
        return Ok(());
    }
    let mut out = [0; 256];
    let book = journal.book;
    let used = journal_state_book::put_book(&mut out, book.account, book.entries, book.stage);
    write(rt, &out, used)?;
    show_paths(rt, book, &mut out)?;
    show_bidders(rt, book, &mut out)?;
    show_entries(rt, book.entries, register, &mut out)
}

// A whole journal. Any text after its last byte 10 is a malformed line.
pub fn run_text(rt: &impl Print, text: &[u8]) -> io::Result<()> {
    let mut run = Run::begin();
    show_engine(rt)?;
    let rest = run.run_lines(rt, text)?;
    run.finish(rt, rest)
}

// The journal of standard input, read as it comes. A line that fills the buffer is too long, and its bytes are passed over up to
// the next byte 10. The number of reads is bounded only for the proof that this ends: no input needs that many.
pub fn run_input(rt: &(impl Print + Input)) -> io::Result<()> {
    let mut run = Run::begin();
    let mut reader = rt.reader();
    let mut buffer = [0; INPUT_BYTES];
    let mut filled = 0;
    show_engine(rt)?;
    for _turn in 0..READS {
        let got = program_input::read_more(&mut reader, &mut buffer, filled)?;
        if got == 0 {
            return run.finish(rt, filled);
        }
        filled += got;
        let rest = run.run_lines(rt, &buffer[..filled])?;
        buffer.copy_within(filled - rest..filled, 0);
        run.over |= rest == INPUT_BYTES;
        filled = rest % INPUT_BYTES;
    }
    Ok(())
}
