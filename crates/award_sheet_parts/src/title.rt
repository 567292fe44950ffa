// The first two lines of an award sheet.
ghost use Rattle.std.specs.Prelude.{◌+◌, ◌≤◌, length};
ghost use Rattle.text_numbers.specs.Put.{Put};
ghost use Rattle.award_sheet_parts.specs.AwardSheet.{award_title_line, title_text};

use market::engine::Engine;

// Writes the title, with the engine's own release and rule edition.
fn put_title_line(out: &mut [u8], at: usize) -> usize
    requires { at + length award_title_line ≤ length out.old }
    ensures { Put out.old at award_title_line out.new result }
{
    let named = text_numbers::put_bytes(out, at, b"TRA-AWARD release ");
    let released = text_writing::put_field(out, named, Engine::RELEASE as u64, text_fields::SPACE);
    text_writing::put_count(out, released, b"rules", Engine::RULES as u64)
}

// Writes the title, and the number of rounds.
pub fn put_title(out: &mut [u8], at: usize, rounds: usize) -> usize
    requires { at + length (title_text rounds) ≤ length out.old }
    ensures { Put out.old at (title_text rounds) out.new result }
{
    let next = put_title_line(out, at);
    text_writing::put_count(out, next, b"rounds", rounds as u64)
}
