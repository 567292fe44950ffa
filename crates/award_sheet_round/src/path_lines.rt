// The lines of a round's paths.
ghost use Rattle.std.specs.Prelude.{◌++◌, ◌∷◌, [], ◌+◌, ◌*◌, ◌≤◌, ◌<◌, length};
ghost use Rattle.market.specs.Limits.{path_limit, path_answer_words};
ghost use Rattle.text_numbers.specs.Put.{Put};
ghost use Rattle.text_fields.specs.Fields.{newline};
ghost use Rattle.award_sheet_round.specs.RoundLines.{price_field, award_path_line, award_path_lines};

use market::engine::Engine;

// Writes a price, or `-` if there is none, at the end of its line (rule 14.10).
fn put_price(out: &mut [u8], at: usize, price: u64) -> usize
    requires { at + length (price_field price ++ (newline ∷ [])) ≤ length out.old }
    ensures { Put out.old at (price_field price ++ (newline ∷ [])) out.new result }
{
    if price == 0 {
        return text_writing::put_word(out, at, b"-", text_fields::NEWLINE);
    }
    text_writing::put_field(out, at, price, text_fields::NEWLINE)
}

// Writes the line of a path: its number, offered, sold, price.
fn put_path_line(out: &mut [u8], at: usize, results: &[u64], path: usize) -> usize
    requires path_lt_path_limit { path < path_limit }
    requires path_answer_words_in_bounds { path_answer_words ≤ length results.now }
    requires path_in_bounds { at + length (award_path_line results.now path) ≤ length out.old }
    ensures { Put out.old at (award_path_line results.now path) out.new result }
{
    let first = path * Engine::PATH_ANSWER_SIZE;
    let offered = results[first];
    let sold = results[first + 1];
    let row = [path as u64, offered, sold];
    let next = text_writing::put_numbers(out, at, &row, text_fields::SPACE);
    put_price(out, next, results[first + 2])
}

// Writes the lines of the first `paths` paths.
pub fn put_path_lines(out: &mut [u8], at: usize, results: &[u64], paths: usize) -> usize
    requires paths_le_path_limit { paths ≤ path_limit }
    requires path_answer_words_in_bounds { path_answer_words ≤ length results.now }
    requires paths_in_bounds { at + length (award_path_lines results.now paths) ≤ length out.old }
    ensures { Put out.old at (award_path_lines results.now paths) out.new result }
{
    let mut end = at;
    for path in 0..paths {
        end = put_path_line(out, end, results, path);
    }
    end
}
