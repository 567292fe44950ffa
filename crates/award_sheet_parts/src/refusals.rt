// The line that is printed in the place of an award sheet.
ghost use Rattle.std.specs.Prelude.{◌+◌, ◌≤◌, length};
ghost use Rattle.text_numbers.specs.Put.{Put};
ghost use Rattle.market.specs.Answers.{form_refusal};
ghost use Rattle.award_sheet_parts.specs.AwardSheet.{refused_line, refused_text};

use market::answer::Refusal;

// Writes a refusal's number, from a place on.
pub fn put_refused(out: &mut [u8], at: usize, number: u32) -> usize
    requires { at + length (refused_text number) ≤ length out.old }
    ensures { Put out.old at (refused_text number) out.new result }
{
    text_writing::put_count(out, at, b"refused", number as u64)
}

// Writes the refusal of a faulty sheet, with the number of its first faulty line, from a place on.
pub fn put_faulty(out: &mut [u8], at: usize, line: u32) -> usize
    requires { at + length (refused_line form_refusal line) ≤ length out.old }
    ensures { Put out.old at (refused_line form_refusal line) out.new result }
{
    let named = text_numbers::put_bytes(out, at, b"refused ");
    let numbered = text_writing::put_field(out, named, Refusal::Form as u64, text_fields::SPACE);
    text_writing::put_count(out, numbered, b"line", line as u64)
}
