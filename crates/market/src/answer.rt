// Refusals and answers.
ghost use Rattle.std.specs.Prelude.{◌≡◌};
ghost use Rattle.market.specs.Answers.{answer_number, numbered, refusal_number};

use crate::book::Book;
use crate::units::Cents;

// Why a call is refused; each refusal has its number in the rules.
#[derive(Clone, Copy, Debug, PartialEq, Eq)]
pub enum Refusal {
    // Caused by the calling program.
    ShortBuffer = 1,
    Unsound = 2,
    // Caused by a bidder.
    Bidder = 10,
    Amount = 11,
    Withdrawal = 12,
    Payment = 13,
    Bid = 14,
    SecondBid = 15,
    Stamp = 16,
    // Caused by the auction desk.
    Stage = 20,
    Days = 21,
    BidList = 22,
    RegisterFull = 23,
    NothingDue = 24,
    Quantity = 25,
    // Caused by settlement.
    ZonePrice = 30,
    Account = 31,
    Total = 32,
    Columns = 33,
    // A sheet, or a line of a journal, that is not of its form.
    Form = 40,
}

impl Refusal {
    // The number of the refusal in the rules.
    pub fn number(self) -> u32
        ensures { result ≡ refusal_number self }
    {
        self as u32
    }
}

// What an answered call tells: that it is done, the draw on a letter of credit, or a round's number of bids.
#[derive(Clone, Copy, Debug, PartialEq, Eq)]
pub enum Answer {
    Done,
    Drawn(Cents),
    Bids(usize),
}

// What a call tells outside the engine: its answer, or the number of its refusal.
pub fn numbered(answer: Result<Answer, Refusal>) -> Result<Answer, u32>
    ensures { result ≡ numbered answer }
{
    match answer {
        Ok(answered) => Ok(answered),
        Err(refusal) => Err(refusal.number()),
    }
}

// A call's answer or its refusal, and the book after it.
#[derive(Clone, Copy, Debug, PartialEq, Eq)]
pub struct Outcome {
    pub answer: Result<Answer, Refusal>,
    pub book: Book,
}

impl Outcome {
    // The number of a refusal; 0 where the call is answered.
    pub fn number(self) -> u32
        ensures { result ≡ answer_number self.answer }
    {
        match numbered(self.answer) {
            Ok(_) => 0,
            Err(number) => number,
        }
    }
}
