// Cases found in one text, one after another.
// Before a case there is a line with a word, how many bytes the case has, and a name for it; after the case there is one byte 10.
#![tactic(auto)]

ghost use Rattle.std.specs.Prelude.{◌≡◌, ℕ, ◌+◌, ◌<◌, List, ◌∷◌, ◌++◌, ◌==◌, IfSome, length, position};

// A case: its name up to the end of the line, its own bytes, and the bytes behind all of it.
#[derive(Clone, Copy)]
pub struct Case<'a> {
    pub name: &'a [u8],
    pub text: &'a [u8],
    pub behind: &'a [u8],
}

// The end of the first line: the place of its byte 10, where there is one.
pub fn line_end(bytes: &[u8]) -> Option<usize>
    ensures first { result ≡ position (λ byte. byte == 10) bytes.now }
    ensures in_bounds { IfSome result (λ end. end < length bytes.now) }
{
    bytes.iter().position(|byte| *byte == text_fields::NEWLINE)
}

// The first case of these bytes, where they begin with one.
pub fn first_case<'a>(bytes: &'a [u8], word: &[u8]) -> Option<Case<'a>>
    ensures parts { IfSome result (λ case. (head : List ℕ) × (end : ℕ) × (last : ℕ)
        × (bytes.now ≡ head ++ case.name.now ++ (end ∷ (case.text.now ++ (last ∷ case.behind.now))))) }
    ensures shorter { IfSome result (λ case. length case.name.now + length case.text.now + length case.behind.now < length bytes.now) }
{
    let said = bytes.strip_prefix(word)?.strip_prefix(b" ")?;
    let size = text_fields::field_at(said, 0, text_fields::WORD_TOP, text_fields::SPACE);
    if size.used == 0 {
        return None;
    }
    let named = &said[size.used..];
    let end = line_end(named)?;
    let rest = &named[end + 1..];
    let count = size.value as usize;
    if rest.len() <= count {
        return None;
    }
    Some(Case {
        name: &named[..end],
        text: &rest[..count],
        behind: &rest[count + 1..],
    })
}
