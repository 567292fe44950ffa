// A number and the byte that ends it, and numbers one after another, read at a place of a text.
// What is read at a place is given by the bytes that it takes: 0 if it is not there.
#![tactic(auto)]

ghost use Rattle.std.specs.Prelude.{◌≡◌, cond, ◌+◌, ◌≤◌, eqb, length, drop};
ghost use Rattle.text_fields.specs.Fields.{space, starts_with, field_at, numbers_used};

// The byte between fields, and the one that ends a line.
pub const SPACE: u8 = b' ';

pub const NEWLINE: u8 = b'\n';

// The largest number that fits 32 bits, and the largest of 13 digits.
pub const WORD_TOP: u64 = u32::MAX as u64;

pub const AMOUNT_TOP: u64 = 9_999_999_999_999;

// A number that was read, and the bytes that it takes together with the byte that ends it: 0 bytes if it is not there.
#[derive(Clone, Copy)]
pub struct Field {
    pub value: u64,
    pub used: usize,
}

// Whether the bytes of `word` are at a place of a text.
pub fn starts_with(bytes: &[u8], at: usize, word: &[u8]) -> bool
    requires { at ≤ length bytes.now }
    ensures { result ≡ starts_with word.now (drop at bytes.now) }
{
    bytes[at..].starts_with(word)
}

// The number at a place, up to a limit, with the byte that ends it.
pub fn field_at(bytes: &[u8], at: usize, limit: u64, stop: u8) -> Field
    requires at_in_bounds { at ≤ length bytes.now }
    requires le_stop { 1 ≤ stop }
    ensures field { result ≡ field_at limit stop (drop at bytes.now) }
    ensures fits { at + result.used ≤ length bytes.now }
{
    let number = text_numbers::number_at(bytes, at);
    let digits = number.digits;
    let ended = digits < bytes.len() - at && bytes[at + digits] == stop;
    if 1 <= digits && number.value <= limit && ended {
        return Field {
            value: number.value,
            used: digits + 1,
        };
    }
    Field { value: 0, used: 0 }
}

// The byte that ends a number after which `more` numbers follow.
fn stop_before(more: u64, last: u8) -> u8
    ensures { result ≡ cond (eqb more 0) last space }
{
    if more == 0 { last } else { SPACE }
}

// The bytes that `count` numbers take, each ended by a space and the last by another byte.
pub fn numbers_used(bytes: &[u8], at: usize, limit: u64, last: u8, count: u64) -> usize
    requires at_in_bounds { at ≤ length bytes.now }
    requires le_last { 1 ≤ last }
    ensures numbers { result ≡ numbers_used limit last count (drop at bytes.now) }
    ensures fits { at + result ≤ length bytes.now }
{
    let mut used = 0;
    let mut left = count;
    while 0 < left {
        left -= 1;
        let next = field_at(bytes, at + used, limit, stop_before(left, last));
        if next.used == 0 {
            return 0;
        }
        used += next.used;
    }
    used
}
