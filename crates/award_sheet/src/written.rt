// An award sheet, and the line that takes its place, on a writer of the whole buffer.
ghost use Rattle.std.specs.Prelude.{◌≡◌, true, [], ◌∷◌, ◌≤◌, length};
ghost use Rattle.market.specs.Answers.{form_refusal};
ghost use Rattle.market.specs.Books.{every};
ghost use Rattle.market.specs.Limits.{award_sheet_bytes, path_limit};
ghost use Rattle.award_sheet_parts.specs.AwardSheet.{is_bidder, award_text, refused_line, refused_text};
ghost use Rattle.award_sheet_writer.specs.Written.{empty_writer, writer_after};
ghost use Rattle.award_sheet.specs.Rounds.{made, Answered};

use award_sheet_writer::Writer;
use market::book::Book;

// Writes the award sheet of one round.
pub fn one<'a>(
    out: &'a mut [u8],
    book: Book,
    listed: &[u32],
    bids: &[u32],
    answers: &[u64],
    results: &[u64],
) -> Writer<'a>
    requires answered { Answered bids.now answers.now results.now }
    requires path_count_bound { book.path_count ≤ path_limit }
    requires listed_value { every is_bidder listed.now ≡ true }
    requires listed_in_bounds { length (award_text (made bids.now answers.now results.now ∷ []) book listed.now) ≤ length out.old }
    ensures { result ≡ writer_after (empty_writer out.entry) (award_text (made bids.now answers.now results.now ∷ []) book listed.now) }
{
    let paths = book.path_count;
    let titled = Writer::start(out).title(1);
    let first = titled.round(bids, answers, results, paths);
    first.bidders(book, listed)
}

// Writes the award sheet of two rounds.
pub fn two<'a>(
    out: &'a mut [u8],
    book: Book,
    listed: &[u32],
    bids: &[u32],
    answers: &[u64],
    results: &[u64],
    later_bids: &[u32],
    later_answers: &[u64],
    later_results: &[u64],
) -> Writer<'a>
    requires answered { Answered bids.now answers.now results.now }
    requires answered_2 { Answered later_bids.now later_answers.now later_results.now }
    requires path_count_bound { book.path_count ≤ path_limit }
    requires listed_value { every is_bidder listed.now ≡ true }
    requires listed_in_bounds { length (award_text (made bids.now answers.now results.now ∷ made later_bids.now later_answers.now later_results.now
        ∷ []) book listed.now) ≤ length out.old }
    ensures { result ≡ writer_after (empty_writer out.entry) (award_text (made bids.now answers.now results.now
        ∷ made later_bids.now later_answers.now later_results.now ∷ []) book listed.now) }
{
    let paths = book.path_count;
    let titled = Writer::start(out).title(2);
    let first = titled.round(bids, answers, results, paths);
    let second = first.round(later_bids, later_answers, later_results, paths);
    second.bidders(book, listed)
}

// Writes a refusal's number.
pub fn refused<'a>(out: &'a mut [u8], number: u32) -> Writer<'a>
    requires { award_sheet_bytes ≤ length out.old }
    ensures { result ≡ writer_after (empty_writer out.entry) (refused_text number) }
{
    Writer::start(out).refused(number)
}

// Writes the number of the first faulty line of a sheet.
pub fn faulty<'a>(out: &'a mut [u8], line: u32) -> Writer<'a>
    requires { award_sheet_bytes ≤ length out.old }
    ensures { result ≡ writer_after (empty_writer out.entry) (refused_line form_refusal line) }
{
    Writer::start(out).faulty(line)
}
