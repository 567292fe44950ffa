// The fields of a line before its list.
ghost use Rattle.std.specs.Prelude.{◌≡◌, ◌≤◌, length};
ghost use Rattle.journal_call_line.specs.CallLine as rules;

use market::book::{Kind, Period};
use market::units::Day;

// Kind and period of an auction, whether they are present, and the bytes that they take.
#[derive(Clone, Copy)]
pub struct Opening {
    pub present: bool,
    pub kind: Kind,
    pub period: Period,
    pub used: usize,
}

// Day and hour of a payout, whether they are present, and the bytes that they take.
#[derive(Clone, Copy)]
pub struct HourLine {
    pub present: bool,
    pub day: Day,
    pub failed: bool,
    pub used: usize,
}

#[tactic(auto, unfolding(crate::specs::CallLine::opening))]
pub fn opening_line(text: &[u8]) -> Opening
    ensures head { result ≡ rules.opening text.now }
    ensures fits { result.used ≤ length text.now }
{
    let kind = journal_fields::choice_at(text, 0, b" S", Kind::Short, b" L", Kind::Long);
    let first = journal_fields::number_at(text, kind.used, text_fields::WORD_TOP);
    let days = kind.used + first.used;
    let last = journal_fields::number_at(text, days, text_fields::WORD_TOP);
    Opening {
        present: (kind.used != 0) & (first.used != 0) & (last.used != 0),
        kind: kind.value,
        period: Period {
            first: Day(first.value as u32),
            last: Day(last.value as u32),
        },
        used: days + last.used,
    }
}

#[tactic(auto, unfolding(crate::specs::CallLine::hour_line))]
pub fn hour_line(text: &[u8]) -> HourLine
    ensures head { result ≡ rules.hour_line text.now }
    ensures fits { result.used ≤ length text.now }
{
    let day = journal_fields::number_at(text, 0, text_fields::WORD_TOP);
    let hour = journal_fields::choice_at(text, day.used, b" failed", true, b" priced", false);
    HourLine {
        present: (day.used != 0) & (hour.used != 0),
        day: Day(day.value as u32),
        failed: hour.value,
        used: day.used + hour.used,
    }
}
