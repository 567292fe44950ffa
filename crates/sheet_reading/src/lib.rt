// What the lines of a sheet's bidders and paths say, read into slots, and its days.
#![tactic(auto)]

ghost use Rattle.std.specs.Prelude.{◌≡◌, ◌+◌, ◌≤◌, min, length, get_or, drop};
ghost use Rattle.market.specs.Books.{day_number};
ghost use Rattle.market.specs.Limits.{bidder_limit, path_limit};
ghost use Rattle.text_fields.specs.Fields.{word_top, newline, field_at, numbers_said};
ghost use Rattle.sheet_lines.specs.Lines.{days_place, count_said};
ghost use Rattle.sheet_lines.specs.declared.part.Part.TheVariants.{Bidders, Paths};
ghost use Rattle.sheet_form.specs.Reading.{lines_in, bidder_line_at, direction_of, path_line_of, route_in, path_line_at, section_says, days_in};
ghost use Rattle.sheet_form.specs.Slots.{filled, no_bidder_line, no_path_line, bidder_rows, path_slots};

use market::book::{Direction, Period};
use market::engine::Engine;
use market::units::Day;
use sheet_form::rows::{BidderLine, BidderRows, PathLine, PathRows};
use sheet_lines::part::Part;

// The place of the days in a title.
const DAYS: usize = 6;

// How many paths a book has.
const PATHS: u64 = Engine::PATHS as u64;

// A number of 32 bits that was read, and the bytes that it takes together with the byte that ends it: 0 bytes if it is not there.
#[derive(Clone, Copy)]
struct Word {
    value: u32,
    used: usize,
}

// ---- Lines

// The number of 32 bits at a place, with the byte that ends it.
fn word_at(bytes: &[u8], at: usize, stop: u8) -> Word
    requires at_in_bounds { at ≤ length bytes.now }
    requires le_stop { 1 ≤ stop }
    ensures value { result.value ≡ (field_at word_top stop (drop at bytes.now)).value }
    ensures used { result.used ≡ (field_at word_top stop (drop at bytes.now)).used }
    ensures fits { at + result.used ≤ length bytes.now }
{
    let field = text_fields::field_at(bytes, at, text_fields::WORD_TOP, stop);
    Word {
        value: field.value as u32,
        used: field.used,
    }
}

// A bidder's line: bidder, cash and letter.
fn bidder_at(bytes: &[u8], at: usize) -> BidderLine
    requires { at ≤ length bytes.now }
    ensures { result ≡ bidder_line_at (drop at bytes.now) }
{
    let bidder = text_fields::field_at(bytes, at, text_fields::AMOUNT_TOP, text_fields::SPACE);
    let second = at + bidder.used;
    let cash = text_fields::field_at(bytes, second, text_fields::AMOUNT_TOP, text_fields::SPACE);
    let third = second + cash.used;
    let letter = text_fields::field_at(bytes, third, text_fields::AMOUNT_TOP, text_fields::NEWLINE);
    BidderLine {
        bidder: bidder.value,
        cash: cash.value,
        letter: letter.value,
    }
}

// The direction whose byte is at a place; an export if there is none.
fn direction_at(bytes: &[u8], at: usize) -> Direction
    requires { at ≤ length bytes.now }
    ensures { result ≡ direction_of (get_or (drop at bytes.now) 0 0) }
{
    if at < bytes.len() && bytes[at] == sheet_lines::IMPORT {
        return Direction::Import;
    }
    Direction::Export
}

// The place two bytes further on, or the end.
fn two_on(bytes: &[u8], at: usize) -> usize
    requires { at ≤ length bytes.now }
    ensures place { drop result bytes.now ≡ drop 2 (drop at bytes.now) }
    ensures fits { result ≤ length bytes.now }
{
    if bytes.len() - at < 2 {
        return bytes.len();
    }
    at + 2
}

// What a path's line says after its direction: zone, base, FUL, A and B.
fn numbers_at(direction: Direction, bytes: &[u8], at: usize) -> PathLine
    requires { at ≤ length bytes.now }
    ensures { result ≡ path_line_of direction (numbers_said word_top newline 5 (drop at bytes.now)) }
{
    let zone = word_at(bytes, at, text_fields::SPACE);
    let second = at + zone.used;
    let base = word_at(bytes, second, text_fields::SPACE);
    let third = second + base.used;
    let upper = word_at(bytes, third, text_fields::SPACE);
    let fourth = third + upper.used;
    let first = word_at(bytes, fourth, text_fields::SPACE);
    let fifth = fourth + first.used;
    let last = word_at(bytes, fifth, text_fields::NEWLINE);
    PathLine {
        direction,
        zone: zone.value,
        base: base.value,
        upper: upper.value,
        first: first.value,
        second: last.value,
    }
}

// A path's line after its number.
fn route_at(bytes: &[u8], at: usize) -> PathLine
    requires { at ≤ length bytes.now }
    ensures { result ≡ route_in (drop at bytes.now) }
{
    let direction = direction_at(bytes, at);
    numbers_at(direction, bytes, two_on(bytes, at))
}

// A path's line.
fn path_at(bytes: &[u8], at: usize) -> PathLine
    requires { at ≤ length bytes.now }
    ensures { result ≡ path_line_at (drop at bytes.now) }
{
    let number = text_fields::field_at(bytes, at, text_fields::WORD_TOP, text_fields::SPACE);
    route_at(bytes, at + number.used)
}

// ---- Sections

// A slot without a bidder's line.
fn no_bidder_line() -> BidderLine
    ensures { result ≡ no_bidder_line }
{
    BidderLine {
        bidder: 0,
        cash: 0,
        letter: 0,
    }
}

// The first `count` bidders' lines from a place on, in slots.
fn bidder_slots(bytes: &[u8], at: usize, count: usize) -> [BidderLine; Engine::BIDDERS]
    requires at_in_bounds { at ≤ length bytes.now }
    requires count_le_bidder_limit { count ≤ bidder_limit }
    ensures { result ≡ filled bidder_limit no_bidder_line (lines_in Bidders bidder_line_at count 0 (drop at bytes.now)) }
{
    let mut slots = [no_bidder_line(); Engine::BIDDERS];
    let mut place = at;
    let mut state: u64 = 0;
    for i in 0..count {
        let line = bidder_at(bytes, place);
        slots[i] = line;
        let step = sheet_lines::section::line_at(Part::Bidders, state, bytes, place);
        place += step.used;
        state = step.next;
    }
    slots
}

// The bidders' lines of the section at a place.
pub fn bidders_of(bytes: &[u8], at: usize) -> BidderRows
    requires at_in_bounds { at ≤ length bytes.now }
    requires bytes_bound { count_said Bidders (drop at bytes.now) ≤ bidder_limit }
    ensures { result ≡ bidder_rows (section_says Bidders bidder_line_at (drop at bytes.now)) }
{
    let said = sheet_lines::count_line(bytes, at, Part::Bidders);
    let count = said.value as usize;
    BidderRows {
        count,
        lines: bidder_slots(bytes, at + said.used, count),
    }
}

// A slot without a path's line.
fn no_path_line() -> PathLine
    ensures { result ≡ no_path_line }
{
    PathLine {
        direction: Direction::Export,
        zone: 0,
        base: 0,
        upper: 0,
        first: 0,
        second: 0,
    }
}

// The first `count` paths' lines from a place on, in slots.
fn path_slots(bytes: &[u8], at: usize, count: usize) -> [PathLine; Engine::PATHS]
    requires at_in_bounds { at ≤ length bytes.now }
    requires count_le_path_limit { count ≤ path_limit }
    ensures { result ≡ filled path_limit no_path_line (lines_in Paths path_line_at count 0 (drop at bytes.now)) }
{
    let mut slots = [no_path_line(); Engine::PATHS];
    let mut place = at;
    let mut state: u64 = 0;
    for i in 0..count {
        let line = path_at(bytes, place);
        slots[i] = line;
        let step = sheet_lines::section::line_at(Part::Paths, state, bytes, place);
        place += step.used;
        state = step.next;
    }
    slots
}

// The first paths' lines of the section at a place, and how many lines it has in all.
pub fn paths_of(bytes: &[u8], at: usize) -> PathRows
    requires { at ≤ length bytes.now }
    ensures { result ≡ path_slots (section_says Paths path_line_at (drop at bytes.now)) }
{
    let said = sheet_lines::count_line(bytes, at, Part::Paths);
    let few = said.value.min(PATHS) as usize;
    PathRows {
        count: said.value as usize,
        lines: path_slots(bytes, at + said.used, few),
    }
}

// ---- Title

// The days in a title, first and last.
pub fn period_in(bytes: &[u8]) -> Period
    requires { days_place ≤ length bytes.now }
    ensures { result ≡ record { first = day_number (get_or (days_in bytes.now) 0 0); last = day_number (get_or (days_in bytes.now) 1 0) } }
{
    let first = word_at(bytes, DAYS, text_fields::SPACE);
    let last = word_at(bytes, DAYS + first.used, text_fields::NEWLINE);
    Period {
        first: Day(first.value),
        last: Day(last.value),
    }
}
