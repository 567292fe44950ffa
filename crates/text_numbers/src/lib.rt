// Numbers as decimal text: read at a place of a text, and written into a buffer.
#![tactic(auto)]

ghost use Rattle.std.specs.Prelude.{true, ◌≡◌, ◌+◌, ◌≤◌, length, drop};
ghost use Rattle.market.specs.Books.{every};
ghost use Rattle.market.specs.Limits.{digit_limit};
ghost use Rattle.text_numbers.specs.Decimal.{decimal, is_digit, digits_in, right_digits, number_at, value_from};
ghost use Rattle.text_numbers.specs.Put.{Put};

use market::engine::Engine;

// A number that was read, and how many digits it has: 0 digits if there is no number.
#[derive(Clone, Copy)]
pub struct Number {
    pub value: u64,
    pub digits: usize,
}

// How many digits there are at the front of a text.
fn digit_count(text: &[u8]) -> usize
    ensures { result ≡ length (digits_in text.now) }
{
    text.iter().take_while(|c| c.is_ascii_digit()).count()
}

// The digits at a place of a text.
fn digits_at(text: &[u8], at: usize) -> &[u8]
    ensures { result.now ≡ digits_in (drop at text.now) }
{
    if text.len() < at {
        return &[];
    }
    let rest = &text[at..];
    &rest[..digit_count(rest)]
}

// Whether digits are a number as it is written.
fn right_digits(digits: &[u8]) -> bool
    ensures { result ≡ right_digits digits.now }
{
    match digits {
        [] => false,
        [_] => true,
        [first, ..] => *first != b'0' && digits.len() <= Engine::DIGITS,
    }
}

// The value of digits, which are few enough to be a number.
fn value_of(digits: &[u8]) -> u64
    requires digits_are { every is_digit digits.now ≡ true }
    requires few { length digits.now ≤ digit_limit }
    ensures { result ≡ value_from 0 digits.now }
{
    let mut value = 0;
    for c in digits {
        value = value * 10 + u64::from(*c - b'0');
    }
    value
}

// The number at a place of a text.
pub fn number_at(text: &[u8], at: usize) -> Number
    ensures { result ≡ number_at (drop at text.now) }
{
    let digits = digits_at(text, at);
    if !right_digits(digits) {
        return Number {
            value: 0,
            digits: 0,
        };
    }
    Number {
        value: value_of(digits),
        digits: digits.len(),
    }
}

// How many digits a number has in decimal.
fn digits_of(n: u64) -> usize
    ensures { result ≡ length (decimal n) }
{
    if n == 0 {
        return 1;
    }
    n.ilog10() as usize + 1
}

// Writes a number in decimal into the buffer at a place, and returns the place after it.
pub fn put_number(out: &mut [u8], at: usize, n: u64) -> usize
    requires { at + length (decimal n) ≤ length out.old }
    ensures { Put out.old at (decimal n) out.new result }
{
    let end = at + digits_of(n);
    let mut left = n;
    let mut i = end - 1;
    while 10 <= left {
        out[i] = b'0' + (left % 10) as u8;
        left /= 10;
        i -= 1;
    }
    out[i] = b'0' + left as u8;
    end
}

// Writes bytes as they are into the buffer at a place, and returns the place after them.
pub fn put_bytes(out: &mut [u8], at: usize, bytes: &[u8]) -> usize
    requires { at + length bytes.now ≤ length out.old }
    ensures { Put out.old at bytes.now out.new result }
{
    let end = at + bytes.len();
    out[at..end].copy_from_slice(bytes);
    end
}
