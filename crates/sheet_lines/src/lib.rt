// The lines of a sheet, each read at a place of its text.
// Each is given by the bytes that it takes, its byte 10 included, or 0 if it is faulty.
#![tactic(auto)]

pub mod part;
pub mod section;

ghost use Rattle.std.specs.Prelude.{◌≡◌, ◌&&◌, ◌||◌, ◌+◌, ◌≤◌, ◌<◌, ◌^◌, eqb, length, get_or, drop};
ghost use Rattle.text_fields.specs.Fields.{space, newline, word_top, starts_with, field_at, both as both_used};
ghost use Rattle.sheet_lines.specs.Lines.{word_then, title_used, count_used, count_said, route_used, path_used, bid_used};

use part::Part;
use text_fields::Field;

// The bytes of the kinds and of the directions.
pub const SHORT: u8 = b'S';

pub const LONG: u8 = b'L';

const EXPORT: u8 = b'X';

pub const IMPORT: u8 = b'M';

// The bytes of two parts, the second after the first: 0 if one of them is missing.
fn both(first: usize, second: usize) -> usize
    requires { first + second < 2 ^ 64 }
    ensures { result ≡ both_used first second }
{
    if first == 0 || second == 0 {
        return 0;
    }
    first + second
}

// Whether one of two letters is at a place, with a space after it.
fn letter_at(bytes: &[u8], at: usize, one: u8, other: u8) -> bool
    requires { at ≤ length bytes.now }
    ensures { result ≡ ((eqb (get_or bytes.now at 0) one || eqb (get_or bytes.now at 0) other)
        && eqb (get_or bytes.now (at + 1) 0) space) }
{
    match &bytes[at..] {
        [letter, next, ..] => (*letter == one || *letter == other) && *next == text_fields::SPACE,
        _ => false,
    }
}

// The title: its word, the kind and the two days (rule 14.3).
pub fn title_used(bytes: &[u8]) -> usize
    ensures title { result ≡ title_used bytes.now }
    ensures fits { result ≤ length bytes.now }
{
    if !text_fields::starts_with(bytes, 0, b"TRA ") || !letter_at(bytes, 4, SHORT, LONG) {
        return 0;
    }
    both(
        6,
        text_fields::numbers_used(bytes, 6, text_fields::WORD_TOP, text_fields::NEWLINE, 2),
    )
}

// A count after the word of its section.
fn count_behind(bytes: &[u8], at: usize, word: &[u8]) -> Field
    requires { at ≤ length bytes.now }
    ensures used { result.used ≡ word_then (starts_with word.now (drop at bytes.now)) (length word.now)
        (field_at word_top newline (drop (length word.now) (drop at bytes.now))).used }
    ensures value { result.value ≡ (field_at word_top newline (drop (length word.now) (drop at bytes.now))).value }
    ensures fits { at + result.used ≤ length bytes.now }
{
    if bytes.len() - at < word.len() {
        return Field { value: 0, used: 0 };
    }
    let count = text_fields::field_at(
        bytes,
        at + word.len(),
        text_fields::WORD_TOP,
        text_fields::NEWLINE,
    );
    if !text_fields::starts_with(bytes, at, word) {
        return Field { used: 0, ..count };
    }
    Field {
        value: count.value,
        used: both(word.len(), count.used),
    }
}

// The line before a section: its word and its count.
pub fn count_line(bytes: &[u8], at: usize, part: Part) -> Field
    requires { at ≤ length bytes.now }
    ensures used { result.used ≡ count_used part (drop at bytes.now) }
    ensures value { result.value ≡ count_said part (drop at bytes.now) }
    ensures fits { at + result.used ≤ length bytes.now }
{
    match part {
        Part::Bidders => count_behind(bytes, at, b"bidders "),
        Part::Paths => count_behind(bytes, at, b"paths "),
        Part::Bids => count_behind(bytes, at, b"bids "),
    }
}

// A path's line after its number: direction, zone, base, FUL, A and B.
fn route_used(bytes: &[u8], at: usize) -> usize
    requires { at ≤ length bytes.now }
    ensures route { result ≡ route_used (drop at bytes.now) }
    ensures fits { at + result ≤ length bytes.now }
{
    if !letter_at(bytes, at, EXPORT, IMPORT) {
        return 0;
    }
    both(
        2,
        text_fields::numbers_used(
            bytes,
            at + 2,
            text_fields::WORD_TOP,
            text_fields::NEWLINE,
            5,
        ),
    )
}

// A path's line, which must have the number given.
pub fn path_used(bytes: &[u8], at: usize, number: u64) -> usize
    requires { at ≤ length bytes.now }
    ensures path { result ≡ path_used number (drop at bytes.now) }
    ensures fits { at + result ≤ length bytes.now }
{
    let path = text_fields::field_at(bytes, at, text_fields::WORD_TOP, text_fields::SPACE);
    if path.value != number {
        return 0;
    }
    both(path.used, route_used(bytes, at + path.used))
}

// A bid's line: bidder, path, stamp, the number of pairs, and exactly so many pairs (rule 14.4).
pub fn bid_used(bytes: &[u8], at: usize) -> usize
    requires { at ≤ length bytes.now }
    ensures bid { result ≡ bid_used (drop at bytes.now) }
    ensures fits { at + result ≤ length bytes.now }
{
    let head = text_fields::numbers_used(bytes, at, text_fields::WORD_TOP, text_fields::SPACE, 3);
    let pairs = text_numbers::number_at(bytes, at + head);
    let rest = text_fields::numbers_used(
        bytes,
        at + head,
        text_fields::WORD_TOP,
        text_fields::NEWLINE,
        1 + 2 * pairs.value,
    );
    both(head, rest)
}
