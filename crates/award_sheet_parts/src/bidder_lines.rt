// The lines of the bidders that are listed.
ghost use Rattle.std.specs.Prelude.{◌≡◌, true, ◌+◌, ◌≤◌, length};
ghost use Rattle.market.specs.Books.{every};
ghost use Rattle.text_numbers.specs.Put.{Put};
ghost use Rattle.award_sheet_parts.specs.AwardSheet.{is_bidder, award_bidder_line, award_bidder_lines, bidders_text};

use market::book::{Bidder, Book};

// Writes the line of a bidder: number, cash, applied, letter, hold, owed.
fn put_bidder_line(out: &mut [u8], at: usize, number: u32, bidder: Bidder) -> usize
    requires { at + length (award_bidder_line number bidder) ≤ length out.old }
    ensures { Put out.old at (award_bidder_line number bidder) out.new result }
{
    let row = [
        number as u64,
        bidder.cash.0,
        bidder.applied.0,
        bidder.letter.0,
        bidder.hold.0,
        bidder.owed.0,
    ];
    text_writing::put_numbers(out, at, &row, text_fields::NEWLINE)
}

// Writes the lines of the bidders listed, in the order of the list.
fn put_bidder_lines(out: &mut [u8], at: usize, book: Book, listed: &[u32]) -> usize
    requires listed_value { every is_bidder listed.now ≡ true }
    requires listed_in_bounds { at + length (award_bidder_lines book listed.now) ≤ length out.old }
    ensures { Put out.old at (award_bidder_lines book listed.now) out.new result }
{
    let mut end = at;
    for number in listed {
        end = put_bidder_line(out, end, *number, book_parts::bidder(book, *number));
    }
    end
}

// Writes how many bidders are listed, and their lines.
pub fn put_bidders(out: &mut [u8], at: usize, book: Book, listed: &[u32]) -> usize
    requires listed_value { every is_bidder listed.now ≡ true }
    requires listed_in_bounds { at + length (bidders_text book listed.now) ≤ length out.old }
    ensures { Put out.old at (bidders_text book listed.now) out.new result }
{
    let next = text_writing::put_count(out, at, b"bidders", listed.len() as u64);
    put_bidder_lines(out, next, book, listed)
}
