// The words and the zone prices that end a journal's line, put at the front of a list.
#![tactic(auto)]

ghost use Rattle.std.specs.Prelude.{◌≡◌, List, ℕ, ◌+◌, ◌≤◌, length, drop};
ghost use Rattle.market.specs.Books.{with_front};
ghost use Rattle.journal_fields.specs.JournalFields as rules;
ghost use Rattle.journal_number_lists.specs.Found.{found};

use journal_fields::Found;

// The largest number that fits 63 bits beside a sign.
const PRICE_TOP: u64 = 9_223_372_036_854_775_807;

// Numbers that were read one after another: how many, and the bytes that they take.
#[derive(Clone, Copy)]
pub struct Run {
    pub count: usize,
    pub used: usize,
}

// A number of a list that ends a line.
trait Listed: Copy {
    // The bytes that it takes at the front of a text, 0 where none is present, and what it says.
    ghost used: { List ℕ → ℕ };

    ghost value: { List ℕ → Self };

    // The number at a place after its space.
    fn read(line: &[u8], at: usize) -> Option<Found<Self>>
        requires { at ≤ length line.now }
        ensures field { result ≡ found used value (drop at line.now) }
        ensures fits { at + used (drop at line.now) ≤ length line.now };
}

impl Listed for u32 {
    ghost used = { rules.word_used };

    ghost value = { rules.word_value };

    fn read(line: &[u8], at: usize) -> Option<Found<u32>> {
        let word = journal_fields::number_at(line, at, text_fields::WORD_TOP);
        if word.used == 0 {
            return None;
        }
        Some(Found {
            value: word.value as u32,
            used: word.used,
        })
    }
}

impl Listed for i64 {
    ghost used = { rules.price_used };

    ghost value = { rules.price_value };

    fn read(line: &[u8], at: usize) -> Option<Found<i64>> {
        let price = price_at(line, at);
        if price.used == 0 {
            return None;
        }
        Some(Found {
            value: price.value,
            used: price.used,
        })
    }
}

// The price at a place after its space.
fn price_at(line: &[u8], at: usize) -> Found<i64>
    requires { at ≤ length line.now }
    ensures price { result ≡ rules.price (drop at line.now) }
    ensures fits { at + result.used ≤ length line.now }
{
    if text_fields::starts_with(line, at, b" -") {
        let size = journal_fields::numeral_at(line, at + 2, PRICE_TOP);
        if size.value == 0 {
            return Found { value: 0, used: 0 };
        }
        return Found {
            value: -(size.value as i64),
            used: 2 + size.used,
        };
    }
    let found = journal_fields::number_at(line, at, PRICE_TOP);
    Found {
        value: found.value as i64,
        used: found.used,
    }
}

// Numbers at a place, one after another, put at the front of a list.
fn numbers_at<N: Listed>(line: &[u8], at: usize, out: &mut [N]) -> Run
    requires { at ≤ length line.now }
    ensures count { result.count ≡ length (rules.fields_said N.used N.value (length out.old) (drop at line.now)) }
    ensures used { result.used ≡ rules.fields_used N.used N.value (length out.old) (drop at line.now) }
    ensures fits { at + result.used ≤ length line.now }
    ensures list { out.new ≡ with_front (rules.fields_said N.used N.value (length out.old) (drop at line.now)) out.old }
{
    let mut run = Run { count: 0, used: 0 };
    while run.count < out.len() {
        let Some(next) = N::read(line, at + run.used) else {
            return run;
        };
        out[run.count] = next.value;
        run.count += 1;
        run.used += next.used;
    }
    run
}

// The words, numbers of 32 bits, at a place, one after another, put at the front of a list.
pub fn words_at(line: &[u8], at: usize, out: &mut [u32]) -> Run
    requires { at ≤ length line.now }
    ensures count { result.count ≡ length (rules.words_said (length out.old) (drop at line.now)) }
    ensures used { result.used ≡ rules.words_used (length out.old) (drop at line.now) }
    ensures fits { at + result.used ≤ length line.now }
    ensures list { out.new ≡ with_front (rules.words_said (length out.old) (drop at line.now)) out.old }
{
    numbers_at(line, at, out)
}

// The prices at a place, one after another, put at the front of a list.
pub fn prices_at(line: &[u8], at: usize, out: &mut [i64]) -> Run
    requires { at ≤ length line.now }
    ensures count { result.count ≡ length (rules.prices_said (length out.old) (drop at line.now)) }
    ensures used { result.used ≡ rules.prices_used (length out.old) (drop at line.now) }
    ensures fits { at + result.used ≤ length line.now }
    ensures list { out.new ≡ with_front (rules.prices_said (length out.old) (drop at line.now)) out.old }
{
    numbers_at(line, at, out)
}
