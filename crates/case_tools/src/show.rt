// What the lines are made of.
use crate::report;
use call_funding::Funds;
use market::answer::{Answer, Outcome};
use market::book::{Book, Kind, Stage};
use std::io;

// What every lent word is before a call writes to it.
pub const BLANK: u32 = 7;

pub const BLANK_WIDE: u64 = 7;

// A line that names the cases after it.
pub fn heading(rt: &impl Print, name: &[u8]) -> io::Result<()> {
    report::text(rt, b"- ")?;
    report::text(rt, name)?;
    report::line(rt)
}

// The word for what is deposited or withdrawn.
pub fn funds(given: Funds) -> &'static str {
    match given {
        Funds::Cash => "cash",
        Funds::Letter => "letter",
    }
}

// A deposit or a withdrawal.
pub fn account_call(
    rt: &impl Print,
    name: &[u8],
    bidder: u32,
    given: Funds,
    amount: u64,
) -> io::Result<()> {
    report::text(rt, name)?;
    print!(rt; " {bidder} {} {amount}", funds(given))
}

// The letter of a kind.
fn letter(kind: Kind) -> char {
    match kind {
        Kind::Short => 'S',
        Kind::Long => 'L',
    }
}

// An open: its kind and days.
pub fn open_call(rt: &impl Print, kind: Kind, first: u32, last: u32) -> io::Result<()> {
    print!(rt; "open {} {first} {last}", letter(kind))
}

// The end of a call's line: the refusal's number, 0 where the call is answered, and a draw or a number of bids.
pub fn answered(rt: &impl Print, outcome: Outcome) -> io::Result<Outcome> {
    print!(rt; ":")?;
    report::answer(rt, outcome)?;
    match outcome.answer {
        Err(_) | Ok(Answer::Done) => {}
        Ok(Answer::Drawn(draw)) => print!(rt; " draw {}", draw.0)?,
        Ok(Answer::Bids(bids)) => print!(rt; " bids {bids}")?,
    }
    report::line(rt)?;
    Ok(outcome)
}

fn stage(rt: &impl Print, given: Stage) -> io::Result<()> {
    match given {
        Stage::Idle => print!(rt; " idle"),
        Stage::Open {
            kind,
            round,
            period,
        } => print!(rt;
            " open {} {round} {} {}",
            letter(kind),
            period.first.0,
            period.last.0
        ),
    }
}

// The account, the number of entries, and the stage.
pub fn book(rt: &impl Print, given: Book) -> io::Result<()> {
    print!(rt; "account")?;
    report::signed(rt, given.account)?;
    print!(rt; " entries {}", given.entries)?;
    stage(rt, given.stage)?;
    report::line(rt)
}
