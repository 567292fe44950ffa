// Rows of a journal's output, put into a buffer: a mark, and numbers with a space before each.
#![tactic(auto)]

ghost use Rattle.std.specs.Prelude.{◌∷◌, ◌+◌, ◌*◌, ◌≤◌, length};
ghost use Rattle.text_numbers.specs.Decimal.{decimal};
ghost use Rattle.text_numbers.specs.Put.{Put};
ghost use Rattle.text_fields.specs.Fields.{space};
ghost use Rattle.journal_rows.specs.Rows.{spaced_numbers, row, last_row, rows};

// A number after one space; returns the place after it.
fn put_behind_space(out: &mut [u8], at: usize, n: u64) -> usize
    requires { at + length (space ∷ decimal n) ≤ length out.old }
    ensures { Put out.old at (space ∷ decimal n) out.new result }
{
    out[at] = text_fields::SPACE;
    text_numbers::put_number(out, at + 1, n)
}

// Numbers, each after one space; returns the place after them.
fn put_spaced(out: &mut [u8], at: usize, numbers: &[u64]) -> usize
    requires { at + length (spaced_numbers numbers.now) ≤ length out.old }
    ensures { Put out.old at (spaced_numbers numbers.now) out.new result }
{
    let mut place = at;
    for n in numbers {
        place = put_behind_space(out, place, *n);
    }
    place
}

// A mark and numbers; returns the place after them.
pub fn put_row(out: &mut [u8], at: usize, mark: &[u8], numbers: &[u64]) -> usize
    requires { at + length (row mark.now numbers.now) ≤ length out.old }
    ensures { Put out.old at (row mark.now numbers.now) out.new result }
{
    let next = text_numbers::put_bytes(out, at, mark);
    put_spaced(out, next, numbers)
}

// A row that ends its line; returns the place after it.
pub fn put_last_row(out: &mut [u8], at: usize, mark: &[u8], numbers: &[u64]) -> usize
    requires { at + length (last_row mark.now numbers.now) ≤ length out.old }
    ensures { Put out.old at (last_row mark.now numbers.now) out.new result }
{
    let end = put_row(out, at, mark, numbers);
    text_numbers::put_bytes(out, end, b"\n")
}

// `count` rows of `size` numbers each, read one after another from a list; returns the place after them.
pub fn put_rows(
    out: &mut [u8],
    at: usize,
    mark: &[u8],
    list: &[u64],
    size: usize,
    count: usize,
) -> usize
    requires size_in_bounds { count * size ≤ length list.now }
    requires list_in_bounds { at + length (rows mark.now size count list.now) ≤ length out.old }
    ensures { Put out.old at (rows mark.now size count list.now) out.new result }
{
    let mut place = at;
    let mut from = 0;
    for k in 0..count {
        let to = from + size;
        place = put_row(out, place, mark, &list[from..to]);
        from = to;
    }
    place
}
