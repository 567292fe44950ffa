// The form of a sheet, tested line by line.
ghost use Rattle.std.specs.Prelude.{◌≡◌, [], ◌∷◌, ◌+◌, ◌≤◌, length, drop, replicate, IfOk, IfErr};
ghost use Rattle.market.specs.Limits.{sheet_bytes};
ghost use Rattle.sheet_lines.specs.Lines.{title_used};
ghost use Rattle.sheet_lines.specs.declared.part.Part.TheVariants.{Bids};
ghost use Rattle.sheet_form.specs.Form as rules;
ghost use Rattle.sheet_form.specs.Sheet.{rounds_of};

use crate::place::Place;
use market::book::Kind;
use market::engine::Engine;
use sheet_lines::part::Part;

// The number of the line at which a text stops being a well-formed sheet, or 0 for a text of too many bytes (rule 14.8).
#[derive(Clone, Copy, Debug, PartialEq, Eq)]
pub struct FaultyLine(pub u32);

// How many lines were read, one after another, and the bytes that they take.
#[derive(Clone, Copy)]
pub struct Read {
    pub lines: usize,
    pub used: usize,
}

// Of `count` lines of a section that should follow from a place on, those before the first faulty one.
fn lines_from(part: Part, bytes: &[u8], at: usize, count: u64) -> Read
    requires at_in_bounds { at ≤ length bytes.now }
    requires bytes_len_bound { length bytes.now ≤ sheet_bytes }
    ensures read { result ≡ rules.lines_at part count 0 (drop at bytes.now) }
    ensures fits { at + result.used ≤ length bytes.now }
    ensures few { result.lines ≤ result.used }
{
    let mut used = 0;
    let mut state = 0;
    for n in 0..count {
        let step = sheet_lines::section::line_at(part, state, bytes, at + used);
        if step.used == 0 {
            return Read {
                lines: n as usize,
                used,
            };
        }
        used += step.used;
        state = step.next;
    }
    Read {
        lines: count as usize,
        used,
    }
}

// The section at a place: the place after it.
fn section_at(part: Part, bytes: &[u8], from: Place) -> Result<Place, FaultyLine>
    requires at_in_bounds { from.at ≤ length bytes.now }
    requires bytes_len_bound { length bytes.now ≤ sheet_bytes }
    ensures whole { IfOk result (rules.SectionIs part bytes.now from) }
    ensures faulty { IfErr result (rules.FaultIn part bytes.now from) }
{
    let count = sheet_lines::count_line(bytes, from.at, part);
    if count.used == 0 {
        return Err(FaultyLine(from.line));
    }
    let more = lines_from(part, bytes, from.at + count.used, count.value);
    let line = from.line + 1 + more.lines as u32;
    if more.lines as u64 != count.value {
        return Err(FaultyLine(line));
    }
    Ok(Place {
        at: from.at + count.used + more.used,
        line,
    })
}

// The end of the sheet: a line here is one too many.
fn end_form(bytes: &[u8], from: Place) -> Result<(), FaultyLine>
    requires { from.at ≤ length bytes.now }
    ensures { result ≡ rules.form_from [] from.line (drop from.at bytes.now) }
{
    if from.at < bytes.len() {
        return Err(FaultyLine(from.line));
    }
    Ok(())
}

// The last section of bids, and the end after it.
fn last_round(bytes: &[u8], from: Place) -> Result<(), FaultyLine>
    requires at_in_bounds { from.at ≤ length bytes.now }
    requires bytes_len_bound { length bytes.now ≤ sheet_bytes }
    ensures { result ≡ rules.form_from (Bids ∷ []) from.line (drop from.at bytes.now) }
{
    let end = section_at(Part::Bids, bytes, from)?;
    end_form(bytes, end)
}

// The sections of bids, one for a short auction and two for a long one, and the end after them: the place after the first.
fn rounds_form(kind: Kind, bytes: &[u8], from: Place) -> Result<usize, FaultyLine>
    requires at_in_bounds { from.at ≤ length bytes.now }
    requires bytes_len_bound { length bytes.now ≤ sheet_bytes }
    ensures form { rules.form_only result ≡ rules.form_from (replicate (rounds_of kind) Bids) from.line (drop from.at bytes.now) }
    ensures second { IfOk result (λ second. second ≡ from.at + (rules.section_at Bids (drop from.at bytes.now)).used) }
    ensures fits { IfOk result (λ second. second ≤ length bytes.now) }
{
    let later = section_at(Part::Bids, bytes, from)?;
    match kind {
        Kind::Short => end_form(bytes, later)?,
        Kind::Long => last_round(bytes, later)?,
    }
    Ok(later.at)
}

// The places at which the sections of a well-formed sheet begin. After the first section of bids comes the second, or the end.
#[derive(Clone, Copy)]
pub struct Found {
    pub bidders: usize,
    pub paths: usize,
    pub first: usize,
    pub second: usize,
}

// The sections of a sheet, from a place on.
fn sections_form(kind: Kind, bytes: &[u8], from: Place) -> Result<Found, FaultyLine>
    requires at_in_bounds { from.at ≤ length bytes.now }
    requires bytes_len_bound { length bytes.now ≤ sheet_bytes }
    ensures form { rules.form_only result ≡ rules.form_from (rules.parts_of kind) from.line (drop from.at bytes.now) }
    ensures places { IfOk result (rules.PlacesAre bytes.now from.at) }
{
    let paths = section_at(Part::Bidders, bytes, from)?;
    let first = section_at(Part::Paths, bytes, paths)?;
    let second = rounds_form(kind, bytes, first)?;
    Ok(Found {
        bidders: from.at,
        paths: paths.at,
        first: first.at,
        second,
    })
}

// The kind in a title.
pub fn kind_in(bytes: &[u8]) -> Kind
    requires { 6 ≤ length bytes.now }
    ensures { result ≡ rules.sheet_kind bytes.now }
{
    if bytes[4] == sheet_lines::LONG {
        Kind::Long
    } else {
        Kind::Short
    }
}

// The form of a text (rule 14.8): the places of its sections, or its first faulty line.
pub fn form_of(bytes: &[u8]) -> Result<Found, FaultyLine>
    ensures form { rules.form_only result ≡ rules.form_of bytes.now }
    ensures places { IfOk result (rules.PlacesAre bytes.now (title_used bytes.now)) }
{
    if bytes.len() > Engine::SHEET_BYTES {
        return Err(FaultyLine(0));
    }
    let title = sheet_lines::title_used(bytes);
    if title == 0 {
        return Err(FaultyLine(1));
    }
    sections_form(kind_in(bytes), bytes, Place { at: title, line: 2 })
}
