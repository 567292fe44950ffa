// What a journal prints of paths, bidders and entries, each line at the front of the buffer.
#![tactic(auto)]

ghost use Rattle.std.specs.Prelude.{◌≡◌, ◌+◌, ◌≤◌, length};
ghost use Rattle.text_numbers.specs.Put.{Put};
ghost use Rattle.journal_state_book.specs.States.{line_room, offer_text, path_text, blank, bidder_part, entry_text};

use market::book::{Bidder, Direction, Entry, Path};

// A path's direction, zone, offer and what is sold.
fn put_offer(out: &mut [u8], at: usize, path: Path) -> usize
    requires { at + length (offer_text path) ≤ length out.old }
    ensures { Put out.old at (offer_text path) out.new result }
{
    let row = [path.zone as u64, path.offer.0 as u64, path.sold.0 as u64];
    match path.direction {
        Direction::Export => journal_rows::put_last_row(out, at, b" X", &row),
        Direction::Import => journal_rows::put_last_row(out, at, b" M", &row),
    }
}

// The path with number `i`.
pub fn put_path(out: &mut [u8], i: usize, path: Path) -> usize
    requires { line_room ≤ length out.old }
    ensures { Put out.old 0 (path_text i path) out.new result }
{
    let row = [i as u64];
    let next = journal_rows::put_row(out, 0, b"# path", &row);
    put_offer(out, next, path)
}

// Whether all of a bidder's account is 0.
fn is_blank(bidder: Bidder) -> bool
    ensures { result ≡ blank bidder }
{
    let money = (bidder.cash.0 == 0)
        & (bidder.applied.0 == 0)
        & (bidder.letter.0 == 0)
        & (bidder.hold.0 == 0)
        & (bidder.owed.0 == 0);
    money & (bidder.step == 0)
}

// The bidder with number `i`, and nothing where all of it is 0.
pub fn put_bidder(out: &mut [u8], i: usize, bidder: Bidder) -> usize
    requires { line_room ≤ length out.old }
    ensures { Put out.old 0 (bidder_part i bidder) out.new result }
{
    if is_blank(bidder) {
        return 0;
    }
    let row = [
        i as u64,
        bidder.cash.0,
        bidder.applied.0,
        bidder.letter.0,
        bidder.hold.0,
        bidder.owed.0,
        bidder.step as u64,
    ];
    journal_rows::put_last_row(out, 0, b"# bidder", &row)
}

// The register's entry with number `i`.
pub fn put_entry(out: &mut [u8], i: usize, entry: Entry) -> usize
    requires { line_room ≤ length out.old }
    ensures { Put out.old 0 (entry_text i entry) out.new result }
{
    let row = [
        i as u64,
        entry.bidder as u64,
        entry.path as u64,
        entry.quantity.0 as u64,
        entry.period.first.0 as u64,
        entry.period.last.0 as u64,
        entry.state as u64,
    ];
    journal_rows::put_last_row(out, 0, b"# entry", &row)
}
