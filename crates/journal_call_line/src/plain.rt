// The lines of calls that have no list.
ghost use Rattle.std.specs.Prelude.{◌≡◌};
ghost use Rattle.journal_call_line.specs.CallLine as rules;

use crate::CallLine;
use call_funding::Funds;
use engine::calls::Call;
use journal_fields::WIDE_TOP;
use market::units::{Cents, Day};

fn account_call(deposit: bool, bidder: u32, funds: Funds, amount: u64) -> Call
    ensures { result ≡ rules.account_call deposit bidder funds amount }
{
    if deposit {
        return Call::Deposit {
            bidder,
            to: funds,
            amount: Cents(amount),
        };
    }
    Call::Withdraw {
        bidder,
        from: funds,
        amount: Cents(amount),
    }
}

// A deposit or a withdrawal.
pub fn account_line(text: &[u8], deposit: bool) -> Option<CallLine>
    ensures { result ≡ rules.said_of (rules.account_read deposit text.now) }
{
    let bidder = journal_fields::number_at(text, 0, text_fields::WORD_TOP);
    let funds = journal_fields::choice_at(
        text,
        bidder.used,
        b" cash",
        Funds::Cash,
        b" letter",
        Funds::Letter,
    );
    let amount = journal_fields::last_number(text, bidder.used + funds.used, WIDE_TOP);
    if !((bidder.used != 0) & (funds.used != 0) & (amount.used != 0)) {
        return None;
    }
    let call = account_call(deposit, bidder.value as u32, funds.value, amount.value);
    Some(CallLine {
        call,
        words: 0,
        prices: 0,
    })
}

pub fn pay_line(text: &[u8]) -> Option<CallLine>
    ensures { result ≡ rules.said_of (rules.pay_read text.now) }
{
    let bidder = journal_fields::number_at(text, 0, text_fields::WORD_TOP);
    let amount = journal_fields::last_number(text, bidder.used, WIDE_TOP);
    if !((bidder.used != 0) & (amount.used != 0)) {
        return None;
    }
    let call = Call::Pay {
        bidder: bidder.value as u32,
        amount: Cents(amount.value),
    };
    Some(CallLine {
        call,
        words: 0,
        prices: 0,
    })
}

pub fn default_line(text: &[u8]) -> Option<CallLine>
    ensures { result ≡ rules.said_of (rules.default_read text.now) }
{
    let bidder = journal_fields::last_number(text, 0, text_fields::WORD_TOP);
    if bidder.used == 0 {
        return None;
    }
    let call = Call::Default {
        bidder: bidder.value as u32,
    };
    Some(CallLine {
        call,
        words: 0,
        prices: 0,
    })
}

pub fn retire_line(text: &[u8]) -> Option<CallLine>
    ensures { result ≡ rules.said_of (rules.retire_read text.now) }
{
    let day = journal_fields::last_number(text, 0, text_fields::WORD_TOP);
    if day.used == 0 {
        return None;
    }
    let call = Call::Retire {
        day: Day(day.value as u32),
    };
    Some(CallLine {
        call,
        words: 0,
        prices: 0,
    })
}

pub fn rent_line(text: &[u8]) -> Option<CallLine>
    ensures { result ≡ rules.said_of (rules.rent_read text.now) }
{
    let amount = journal_fields::last_number(text, 0, WIDE_TOP);
    if amount.used == 0 {
        return None;
    }
    let call = Call::Rent {
        amount: Cents(amount.value),
    };
    Some(CallLine {
        call,
        words: 0,
        prices: 0,
    })
}
