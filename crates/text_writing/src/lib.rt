// Numbers and words written into a buffer, each with the byte that ends it.
#![tactic(auto)]

ghost use Rattle.std.specs.Prelude.{◌++◌, ◌∷◌, [], ◌+◌, ◌≤◌, length};
ghost use Rattle.text_numbers.specs.Put.{Put};
ghost use Rattle.text_fields.specs.Fields.{count_line, field_text, numbers_text};

// Writes a number and the byte that ends it.
pub fn put_field(out: &mut [u8], at: usize, n: u64, stop: u8) -> usize
    requires { at + length (field_text n stop) ≤ length out.old }
    ensures { Put out.old at (field_text n stop) out.new result }
{
    let end = text_numbers::put_number(out, at, n);
    out[end] = stop;
    end + 1
}

// Writes a word and the byte that ends it.
pub fn put_word(out: &mut [u8], at: usize, word: &[u8], stop: u8) -> usize
    requires { at + length (word.now ++ (stop ∷ [])) ≤ length out.old }
    ensures { Put out.old at (word.now ++ (stop ∷ [])) out.new result }
{
    let next = text_numbers::put_bytes(out, at, word);
    out[next] = stop;
    next + 1
}

// Writes numbers with a space between them, the last ended by another byte.
pub fn put_numbers(out: &mut [u8], at: usize, numbers: &[u64], last: u8) -> usize
    requires in_bounds { 1 ≤ length numbers.now }
    requires numbers_in_bounds { at + length (numbers_text last numbers.now) ≤ length out.old }
    ensures { Put out.old at (numbers_text last numbers.now) out.new result }
{
    let Some((end, front)) = numbers.split_last() else {
        return at;
    };
    let mut place = at;
    for n in front {
        place = put_field(out, place, *n, text_fields::SPACE);
    }
    put_field(out, place, *end, last)
}

// Writes a word and a number, on a line of their own.
pub fn put_count(out: &mut [u8], at: usize, word: &[u8], n: u64) -> usize
    requires { at + length (count_line word.now n) ≤ length out.old }
    ensures { Put out.old at (count_line word.now n) out.new result }
{
    let next = put_word(out, at, word, text_fields::SPACE);
    put_field(out, next, n, text_fields::NEWLINE)
}
