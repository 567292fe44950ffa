// The fields of a journal's line, each read at a place of the line with the space before it.
// The result also says how many bytes the field takes, 0 where it is not present.
#![tactic(auto)]

ghost use Rattle.std.specs.Prelude.{◌≡◌, true, false, ◌+◌, ◌≤◌, length, drop, MatchOption};
ghost use Rattle.text_numbers.specs.Decimal.{digits_in};
ghost use Rattle.text_fields.specs.Fields.{starts_with};
ghost use Rattle.journal_fields.specs.JournalFields as rules;

use text_fields::Field;

// The largest number that fits 64 bits.
pub const WIDE_TOP: u64 = 18_446_744_073_709_551_615;

// The byte of the digit 0, and that of 9.
const ZERO: u8 = 48;

const NINE: u8 = 57;

// What was read of a line, and the bytes that it takes, 0 where it is not present.
#[derive(Clone, Copy)]
pub struct Found<T> {
    pub value: T,
    pub used: usize,
}

// The part of a line from a place on.
pub fn behind(line: &[u8], at: usize) -> &[u8]
    requires { at ≤ length line.now }
    ensures { result.now ≡ drop at line.now }
{
    &line[at..]
}

// The value of the digits at a place, and how many they are: 0 of both if the value is over a limit.
fn digits_at(line: &[u8], at: usize, limit: u64) -> Field
    requires { at ≤ length line.now }
    ensures field { result ≡ rules.value_up_to limit (digits_in (drop at line.now)) }
    ensures fits { at + result.used ≤ length line.now }
{
    let none = Field { value: 0, used: 0 };
    let tenth = limit / 10;
    let mut value: u64 = 0;
    let mut i = at;
    while i < line.len() {
        let c = line[i];
        if c < ZERO {
            return Field {
                value,
                used: i - at,
            };
        }
        if NINE < c {
            return Field {
                value,
                used: i - at,
            };
        }
        let digit = u64::from(c - ZERO);
        if tenth < value {
            return none;
        }
        let tens = value * 10;
        if limit - tens < digit {
            return none;
        }
        value = tens + digit;
        i += 1;
    }
    Field {
        value,
        used: i - at,
    }
}

// The number at a place, up to a limit.
pub fn numeral_at(line: &[u8], at: usize, limit: u64) -> Field
    requires { at ≤ length line.now }
    ensures field { result ≡ rules.numeral limit (drop at line.now) }
    ensures within { result.value ≤ limit }
    ensures fits { at + result.used ≤ length line.now }
{
    let found = digits_at(line, at, limit);
    if 1 < found.used {
        if line[at] == ZERO {
            return Field { value: 0, used: 0 };
        }
    }
    found
}

// The number at a place after its space, up to a limit.
pub fn number_at(line: &[u8], at: usize, limit: u64) -> Field
    requires { at ≤ length line.now }
    ensures field { result ≡ rules.number limit (drop at line.now) }
    ensures within { result.value ≤ limit }
    ensures fits { at + result.used ≤ length line.now }
{
    let none = Field { value: 0, used: 0 };
    if !text_fields::starts_with(line, at, b" ") {
        return none;
    }
    let found = numeral_at(line, at + 1, limit);
    if found.used == 0 {
        return none;
    }
    Field {
        value: found.value,
        used: 1 + found.used,
    }
}

// The number at a place, where it ends the line.
#[tactic(auto, unfolding(crate::specs::JournalFields::last_number))]
pub fn last_number(line: &[u8], at: usize, limit: u64) -> Field
    requires { at ≤ length line.now }
    ensures field { result ≡ rules.last_number limit (drop at line.now) }
    ensures within { result.value ≤ limit }
    ensures fits { at + result.used ≤ length line.now }
{
    let found = number_at(line, at, limit);
    if found.used != line.len() - at {
        return Field { value: 0, used: 0 };
    }
    found
}

// Which of two words is present at a place, each given with its space: what the word stands for. Where neither is present the value
// is the first word's.
#[tactic(auto, unfolding(crate::specs::JournalFields::choice), using(crate::proofs::FieldLaws::word_room))]
pub fn choice_at<T: Copy>(
    line: &[u8],
    at: usize,
    first: &[u8],
    one: T,
    second: &[u8],
    other: T,
) -> Found<T>
    requires { at ≤ length line.now }
    ensures field { result ≡ rules.choice first.now one second.now other (drop at line.now) }
    ensures fits { at + result.used ≤ length line.now }
{
    if text_fields::starts_with(line, at, first) {
        return Found {
            value: one,
            used: first.len(),
        };
    }
    if text_fields::starts_with(line, at, second) {
        return Found {
            value: other,
            used: second.len(),
        };
    }
    Found {
        value: one,
        used: 0,
    }
}

// The text after a word that a line begins with.
pub fn after_word<'a>(line: &'a [u8], word: &[u8]) -> Option<&'a [u8]>
    ensures { MatchOption result (starts_with word.now line.now ≡ false)
        (λ text. (starts_with word.now line.now ≡ true) × (text.now ≡ drop (length word.now) line.now)) }
{
    if text_fields::starts_with(line, 0, word) {
        return Some(behind(line, word.len()));
    }
    None
}
