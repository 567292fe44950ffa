// The bid sections of a sheet, handed back as parts of the caller's bytes, and their words.
#![tactic(auto)]

ghost use Rattle.std.specs.Prelude.{◌≡◌, ◌-◌, ◌≤◌, length, take, drop};
ghost use Rattle.market.specs.Limits.{sheet_bytes};
ghost use Rattle.sheet_lines.specs.Lines.{title_used};
ghost use Rattle.sheet_lines.specs.declared.part.Part.TheVariants.{Bids};
ghost use Rattle.sheet_form.specs.Form.{PlacesAre};
ghost use Rattle.sheet_form.specs.Reading.{part_at, after_part, at_rounds};
ghost use Rattle.sheet_form.specs.Words.{word_of, section_words};
ghost use Rattle.text_numbers.specs.Put.{put_at};

use sheet_form::form::Found;
use sheet_lines::part::Part;

// The first bid section of a well-formed sheet, with its count line.
pub fn first_bids(bytes: &[u8], found: Found) -> &[u8]
    requires { PlacesAre bytes.now (title_used bytes.now) found }
    ensures place { result.now ≡ take (found.second - found.first) (drop found.first bytes.now) }
    ensures section { result.now ≡ part_at Bids (at_rounds bytes.now) }
{
    &bytes[found.first..found.second]
}

// What comes after it: the second bid section of a long auction.
pub fn second_bids(bytes: &[u8], found: Found) -> &[u8]
    requires { PlacesAre bytes.now (title_used bytes.now) found }
    ensures place { result.now ≡ drop found.second bytes.now }
    ensures section { result.now ≡ after_part Bids (at_rounds bytes.now) }
{
    &bytes[found.second..]
}

// A number as a word: 0 if it does not fit.
fn word_of(value: u64) -> u32
    ensures { result ≡ word_of value }
{
    u32::try_from(value).unwrap_or(0)
}

// Writes the words of a bid section to the front of a list, and returns how many there are.
pub fn words_of(section: &[u8], out: &mut [u32]) -> usize
    requires section_len_bound { length section.now ≤ sheet_bytes }
    requires section_in_bounds { length section.now ≤ length out.old }
    ensures count { result ≡ length (section_words section.now) }
    ensures words { out.new ≡ put_at out.old 0 (section_words section.now) }
{
    let count = sheet_lines::count_line(section, 0, Part::Bids);
    let mut at = count.used;
    let mut n: usize = 0;
    while at < section.len() {
        let number = text_numbers::number_at(section, at);
        out[n] = word_of(number.value);
        n += 1;
        at += number.digits + 1;
    }
    n
}
