// The eleven calls.
use call_funding::Funds;
use market::book::{Kind, Period};
use market::units::{Cents, Day};

// A call, with what it is given besides the lists that are lent to it.
#[derive(Clone, Copy)]
pub enum Call {
    Deposit {
        bidder: u32,
        to: Funds,
        amount: Cents,
    },
    Withdraw {
        bidder: u32,
        from: Funds,
        amount: Cents,
    },
    Open {
        kind: Kind,
        period: Period,
    },
    Round,
    Pay {
        bidder: u32,
        amount: Cents,
    },
    Default {
        bidder: u32,
    },
    Retire {
        day: Day,
    },
    Rent {
        amount: Cents,
    },
    Payout {
        day: Day,
        failed: bool,
    },
    Disburse {
        total: Cents,
    },
    Recover {
        total: Cents,
    },
}
