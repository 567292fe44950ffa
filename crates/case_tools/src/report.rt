// What the programs of this repository print with: fields on standard output, one after another, and lines that end with byte 10.
use market::answer::Outcome;
use market::book::Bidder;
use market::units::{Balance, Cents};
use std::io;

// Text as it is.
pub fn text(rt: &impl Print, bytes: &[u8]) -> io::Result<()> {
    rt.write_all(bytes)
}

// A space and a number.
pub fn number(rt: &impl Print, n: u64) -> io::Result<()> {
    print!(rt; " {n}")
}

// A space and each number of a list.
pub fn numbers<T: Copy + Into<u64>>(rt: &impl Print, words: &[T]) -> io::Result<()> {
    for word in words {
        number(rt, (*word).into())?;
    }
    Ok(())
}

// A space and an amount.
pub fn amount(rt: &impl Print, a: Cents) -> io::Result<()> {
    number(rt, a.0)
}

// A space and a balance with its sign; a balance past the account's limit is not written out.
pub fn signed(rt: &impl Print, account: Balance) -> io::Result<()> {
    if !book_account::sound(account) {
        return print!(rt; " beyond");
    }
    print!(rt; " {}", account.0)
}

// A bidder: cash, applied, letter, hold, owed, step.
pub fn bidder(rt: &impl Print, x: Bidder) -> io::Result<()> {
    amount(rt, x.cash)?;
    amount(rt, x.applied)?;
    amount(rt, x.letter)?;
    amount(rt, x.hold)?;
    amount(rt, x.owed)?;
    print!(rt; " {}", x.step)
}

// The number of an outcome: the refusal's, 0 where the call is answered.
pub fn answer(rt: &impl Print, outcome: Outcome) -> io::Result<()> {
    print!(rt; " {}", outcome.number())
}

// The end of a line.
pub fn line(rt: &impl Print) -> io::Result<()> {
    println!(rt; "")
}

// The name of a case, on a line of its own.
pub fn title(rt: &impl Print, name: &[u8]) -> io::Result<()> {
    text(rt, b"== ")?;
    text(rt, name)?;
    line(rt)
}
