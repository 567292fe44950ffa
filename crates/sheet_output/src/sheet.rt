// A well-formed sheet, from its bytes to its output.
ghost use Rattle.std.specs.Prelude.{◌≡◌, true, [], ◌∷◌, ◌≤◌, length};
ghost use Rattle.market.specs.Answers.{answered};
ghost use Rattle.market.specs.Books.{every};
ghost use Rattle.market.specs.Limits.{award_sheet_bytes, bidder_limit, sheet_bytes};
ghost use Rattle.text_numbers.specs.Put.{Put};
ghost use Rattle.sheet_lines.specs.Lines.{title_used};
ghost use Rattle.sheet_lines.specs.declared.part.Part.TheVariants.{Bids};
ghost use Rattle.sheet_form.specs.Form.{form_of, well_formed, PlacesAre};
ghost use Rattle.sheet_form.specs.Reading.{sheet_in, part_at, after_part, at_rounds};
ghost use Rattle.sheet_form.specs.Words.{section_words};
ghost use Rattle.call_rules.specs.State.{SoundMemory};
ghost use Rattle.sheet_calls.specs.Calls.{empty_register};
ghost use Rattle.award_sheet_parts.specs.AwardSheet.{is_bidder};
ghost use Rattle.sheet_rounds.specs.Rounds.{output_from};
ghost use Rattle.sheet_output.specs.Output.{sheet_output};

use award_sheet::refusals;
use market::answer::numbered;
use market::book::{Book, Kind};
use market::engine::Engine;
use sheet_form::form;
use sheet_form::form::Found;

// The round of a short auction, with the book that its open leaves.
fn run_short(bytes: &[u8], found: Found, book: Book, listed: &[u32], out: &mut [u8]) -> usize
    requires bytes_len_bound { length bytes.now ≤ sheet_bytes }
    requires places_are { PlacesAre bytes.now (title_used bytes.now) found }
    requires sound_memory { SoundMemory book empty_register }
    requires listed_value { every is_bidder listed.now ≡ true }
    requires listed_len_bound { length listed.now ≤ bidder_limit }
    requires award_sheet_bytes_in_bounds { award_sheet_bytes ≤ length out.old }
    ensures { Put out.old 0 (output_from (answered book) listed.now (section_words (part_at Bids (at_rounds bytes.now)) ∷ []))
        out.new result }
{
    let mut words = [0u32; Engine::SHEET_BYTES];
    let section = sheet_bids::first_bids(bytes, found);
    let count = sheet_bids::words_of(section, &mut words);
    sheet_rounds::short_output(book, &words[..count], listed, out)
}

// The two rounds of a long auction.
fn run_long(bytes: &[u8], found: Found, book: Book, listed: &[u32], out: &mut [u8]) -> usize
    requires bytes_len_bound { length bytes.now ≤ sheet_bytes }
    requires places_are { PlacesAre bytes.now (title_used bytes.now) found }
    requires sound_memory { SoundMemory book empty_register }
    requires listed_value { every is_bidder listed.now ≡ true }
    requires listed_len_bound { length listed.now ≤ bidder_limit }
    requires award_sheet_bytes_in_bounds { award_sheet_bytes ≤ length out.old }
    ensures { Put out.old 0
        (output_from (answered book) listed.now
        (section_words (part_at Bids (at_rounds bytes.now)) ∷ section_words (after_part Bids (at_rounds bytes.now)) ∷ []))
        out.new result }
{
    let mut words = [0u32; Engine::SHEET_BYTES];
    let first = sheet_bids::first_bids(bytes, found);
    let count = sheet_bids::words_of(first, &mut words);
    let mut later = [0u32; Engine::SHEET_BYTES];
    let second = sheet_bids::second_bids(bytes, found);
    let later_count = sheet_bids::words_of(second, &mut later);
    sheet_rounds::long_output(book, &words[..count], &later[..later_count], listed, out)
}

// All calls of the sheet (rule 14.6), and their output.
pub fn run(bytes: &[u8], found: Found, out: &mut [u8]) -> usize
    requires bytes_value { form_of bytes.now ≡ well_formed }
    requires places_are { PlacesAre bytes.now (title_used bytes.now) found }
    requires award_sheet_bytes_in_bounds { award_sheet_bytes ≤ length out.old }
    ensures { Put out.old 0 (sheet_output (sheet_in bytes.now)) out.new result }
{
    let bidders = sheet_reading::bidders_of(bytes, found.bidders);
    let paths = sheet_reading::paths_of(bytes, found.paths);
    let kind = form::kind_in(bytes);
    let start = sheet_calls::opened(kind, sheet_reading::period_in(bytes), bidders, paths);
    if let Err(number) = numbered(start.answer) {
        return refusals::refused(out, number);
    }
    let count = bidders.count;
    let lines = bidders.lines;
    let numbers = sheet_calls::numbers(lines);
    let listed = &numbers[..count];
    match kind {
        Kind::Short => run_short(bytes, found, start.book, listed, out),
        Kind::Long => run_long(bytes, found, start.book, listed, out),
    }
}
