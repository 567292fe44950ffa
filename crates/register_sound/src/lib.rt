// Whether the register lent to a call is long enough, and book and counted entries are sound: refusals 1 and 2.
#![tactic(auto)]

ghost use Rattle.std.specs.Prelude.{◌≡◌, ◌*◌, ◌≤◌, ltb, length};
ghost use Rattle.market.specs.Answers.{first_of};
ghost use Rattle.market.specs.Books.{every};
ghost use Rattle.market.specs.Limits.{entry_words};
ghost use Rattle.register.specs.Entries.{sound_entry};
ghost use Rattle.register.specs.Refusals.{register_refusals};
ghost use Rattle.register.specs.Words.{entries_of};

use market::answer::Refusal;
use market::book::{Book, Entry};
use market::engine::Engine;

fn within(number: u32, count: usize) -> bool
    ensures { result ≡ ltb number count }
{
    (number as usize) < count
}

fn sound_entry(paths: usize, entry: Entry) -> bool
    ensures { result ≡ sound_entry paths entry }
{
    let quantity = entry.quantity;
    let period = entry.period;
    let state = entry.state;
    let days = book_parts::sound_period(period);
    (within(entry.bidder, Engine::BIDDERS))
        & (within(entry.path, paths))
        & (1 <= quantity.0)
        & (quantity.0 <= Engine::QUANTITY_LIMIT)
        & days
        & ((state == Engine::PENDING) | (state == Engine::ISSUED))
}

// Whether each of the first `count` entries is sound for a book with `paths` paths.
fn sound_entries(words: &[u32], count: usize, paths: usize) -> bool
    requires { count * entry_words ≤ length words.now }
    ensures { result ≡ every (sound_entry paths) (entries_of words.now count) }
{
    for i in 0..count {
        if !sound_entry(paths, register::read(words, i)) {
            return false;
        }
    }
    true
}

// Whether a call that is lent the register is refused with 1 or 2.
pub fn check(book: Book, words: &[u32]) -> Result<(), Refusal>
    ensures { result ≡ first_of (register_refusals book words.now) }
{
    if words.len() < Engine::REGISTER_WORDS {
        return Err(Refusal::ShortBuffer);
    }
    if !book_sound::sound_book(book) {
        return Err(Refusal::Unsound);
    }
    if !sound_entries(words, book.entries, book.path_count) {
        return Err(Refusal::Unsound);
    }
    Ok(())
}
