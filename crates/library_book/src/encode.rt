// A book written in lent 64-bit words, so that it is read back from them.
ghost use Rattle.std.specs.Prelude.{◌≡◌, true, ◌≤◌, length};
ghost use Rattle.text_numbers.specs.Put.{put_at};
ghost use Rattle.library_book.specs.BookWords as rules;

use crate::parts::write_all;
use crate::{BIDDERS_FROM, FRONT_WORDS};
use market::book::{Book, Kind, Stage};
use market::units::Day;

fn kind_number(kind: Kind) -> u64
    ensures { result ≡ rules.kind_number kind }
{
    match kind {
        Kind::Short => 0,
        Kind::Long => 1,
    }
}

// Five words from place 2 on, those of a stage.
fn encode_five(words: &mut [u64], stage: u64, kind: u64, round: u32, first: Day, last: Day)
    requires { rules.front_size ≤ length words.old }
    ensures words { words.new ≡ put_at words.old 2 (rules.five stage kind round first.0 last.0) }
    ensures fits { rules.fits_auction round first.0 last.0 ≡ true }
{
    words[2] = stage;
    words[3] = kind;
    words[4] = u64::from(round);
    words[5] = u64::from(first.0);
    words[6] = u64::from(last.0);
}

// The words of the stage.
fn encode_stage(words: &mut [u64], stage: Stage)
    requires { rules.front_size ≤ length words.old }
    ensures words { words.new ≡ put_at words.old 2 (rules.stage_words stage) }
    ensures fits { rules.fits_stage stage ≡ true }
{
    match stage {
        Stage::Idle => encode_five(words, 0, 0, 0, Day(0), Day(0)),
        Stage::Open {
            kind,
            round,
            period,
        } => encode_five(
            words,
            1,
            kind_number(kind),
            round,
            period.first,
            period.last,
        ),
    }
}

// A book's words, written at the front of those lent. Every book fits its fields, and so is read back from its words.
pub fn encode_book(words: &mut [u64], book: Book)
    requires { rules.book_size ≤ length words.old }
    ensures words { words.new ≡ put_at words.old 0 (rules.book_words book) }
    ensures fits { rules.FitsBook book }
{
    words[0] = book.path_count as u64;
    words[1] = book.entries as u64;
    encode_stage(words, book.stage);
    write_all(words, FRONT_WORDS, &book.paths);
    write_all(words, BIDDERS_FROM, &book.bidders);
}
