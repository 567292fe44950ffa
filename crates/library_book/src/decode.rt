// A book read from lent 64-bit words.
ghost use Rattle.std.specs.Prelude.{◌≡◌, ◌≤◌, length};
ghost use Rattle.library_book.specs.BookWords as rules;

use crate::parts::{narrow, read_all};
use crate::{BIDDERS_FROM, FRONT_WORDS};
use market::book::{Book, Kind, Period, Stage};
use market::units::{Balance, Day};

fn kind_in(word: u64) -> Kind
    ensures { result ≡ rules.kind_in word }
{
    match word {
        0 => Kind::Short,
        _ => Kind::Long,
    }
}

// The stage, from the words in front.
fn stage_at(words: &[u64]) -> Stage
    requires { rules.front_size ≤ length words.now }
    ensures { result ≡ rules.stage_at words.now }
{
    if words[2] == 0 {
        return Stage::Idle;
    }
    let kind = kind_in(words[3]);
    let period = Period {
        first: Day(narrow(words[5])),
        last: Day(narrow(words[6])),
    };
    Stage::Open {
        kind,
        round: narrow(words[4]),
        period,
    }
}

// The book that words are read as, with an account.
pub fn book_in(words: &[u64], account: i64) -> Book
    requires { rules.book_size ≤ length words.now }
    ensures { result ≡ rules.book_in words.now account }
{
    let paths = read_all(words, FRONT_WORDS);
    let bidders = read_all(words, BIDDERS_FROM);
    let stage = stage_at(words);
    Book {
        paths,
        path_count: words[0] as usize,
        bidders,
        account: Balance(account),
        entries: words[1] as usize,
        stage,
    }
}
