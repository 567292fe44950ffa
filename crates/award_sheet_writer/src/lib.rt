// The writer of an award sheet: the buffer, with how many of its bytes are filled.
#![tactic(auto)]

ghost use Rattle.std.specs.Prelude.{◌≡◌, true, ◌+◌, ◌≤◌, length};
ghost use Rattle.market.specs.Books.{every};
ghost use Rattle.market.specs.Limits.{path_limit, bid_answer_words, path_answer_words};
ghost use Rattle.round_bids.specs.BidRefusals.{BidList};
ghost use Rattle.market.specs.Answers.{form_refusal};
ghost use Rattle.award_sheet_parts.specs.AwardSheet.{bidders_text, is_bidder, refused_line, refused_text, title_text};
ghost use Rattle.award_sheet_writer.specs.Written.{empty_writer, writer_after, answered_text};

use market::book::Book;

// The output buffer, and how much of it is written, from its front on (rule 14.11).
#[derive(Drop)]
pub struct Writer<'a> {
    pub out: &'a mut [u8],
    pub filled: usize,
}

impl<'a> Writer<'a> {
    // Begins a sheet, of which nothing is written yet.
    pub fn start(out: &'a mut [u8]) -> Writer<'a>
        ensures { result ≡ empty_writer out.entry }
    {
        Writer { out, filled: 0 }
    }

    // Writes the title, and the number of rounds.
    pub fn title(self, rounds: usize) -> Writer<'a>
        requires { self.filled + length (title_text rounds) ≤ length self.out.now }
        ensures { result ≡ writer_after self.entry (title_text rounds) }
    {
        let at = self.filled;
        let filled = award_sheet_parts::title::put_title(&mut *self.out, at, rounds);
        Writer {
            out: self.out,
            filled,
        }
    }

    // Writes a round of these bids, with its answers for bids and for paths.
    pub fn round(self, bids: &[u32], answers: &[u64], results: &[u64], paths: usize) -> Writer<'a>
        requires bid_list { BidList bids.now }
        requires bid_answer_words_in_bounds { bid_answer_words ≤ length answers.now }
        requires path_answer_words_in_bounds { path_answer_words ≤ length results.now }
        requires paths_le_path_limit { paths ≤ path_limit }
        requires results_in_bounds { self.filled + length (answered_text paths bids.now answers.now results.now) ≤ length self.out.now }
        ensures { result ≡ writer_after self.entry (answered_text paths bids.now answers.now results.now) }
    {
        let at = self.filled;
        let filled = award_sheet_round::put_round(
            &mut *self.out,
            at,
            bids,
            answers,
            results,
            paths,
        );
        Writer {
            out: self.out,
            filled,
        }
    }

    // Writes how many bidders are listed, and their lines.
    pub fn bidders(self, book: Book, listed: &[u32]) -> Writer<'a>
        requires listed_value { every is_bidder listed.now ≡ true }
        requires listed_in_bounds { self.filled + length (bidders_text book listed.now) ≤ length self.out.now }
        ensures { result ≡ writer_after self.entry (bidders_text book listed.now) }
    {
        let at = self.filled;
        let filled = award_sheet_parts::bidder_lines::put_bidders(&mut *self.out, at, book, listed);
        Writer {
            out: self.out,
            filled,
        }
    }

    // Writes a refusal's number, in the place of a sheet.
    pub fn refused(self, number: u32) -> Writer<'a>
        requires { self.filled + length (refused_text number) ≤ length self.out.now }
        ensures { result ≡ writer_after self.entry (refused_text number) }
    {
        let at = self.filled;
        let filled = award_sheet_parts::refusals::put_refused(&mut *self.out, at, number);
        Writer {
            out: self.out,
            filled,
        }
    }

    // Writes the refusal of a faulty sheet, with its first faulty line, in the place of a sheet.
    pub fn faulty(self, line: u32) -> Writer<'a>
        requires { self.filled + length (refused_line form_refusal line) ≤ length self.out.now }
        ensures { result ≡ writer_after self.entry (refused_line form_refusal line) }
    {
        let at = self.filled;
        let filled = award_sheet_parts::refusals::put_faulty(&mut *self.out, at, line);
        Writer {
            out: self.out,
            filled,
        }
    }

    // How many bytes are filled. The buffer stays as it is.
    pub fn filled(self) -> usize
        ensures { (result ≡ self.entry.filled) × (self.exit.0.now ≡ self.entry.out.now) }
    {
        self.filled
    }
}
