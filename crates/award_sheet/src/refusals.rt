// The line that takes the place of an award sheet, in a buffer that has room for an award sheet.
ghost use Rattle.std.specs.Prelude.{◌≤◌, length};
ghost use Rattle.market.specs.Limits.{award_sheet_bytes};
ghost use Rattle.text_numbers.specs.Put.{Put};
ghost use Rattle.market.specs.Answers.{form_refusal};
ghost use Rattle.award_sheet_parts.specs.AwardSheet.{refused_line, refused_text};

// Writes a refusal's number.
pub fn refused(out: &mut [u8], number: u32) -> usize
    requires { award_sheet_bytes ≤ length out.old }
    ensures { Put out.old 0 (refused_text number) out.new result }
{
    crate::written::refused(out, number).filled()
}

// Writes the number of the first faulty line of a sheet.
pub fn faulty(out: &mut [u8], line: u32) -> usize
    requires { award_sheet_bytes ≤ length out.old }
    ensures { Put out.old 0 (refused_line form_refusal line) out.new result }
{
    crate::written::faulty(out, line).filled()
}
