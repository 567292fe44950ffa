// The book and what it holds, and one entry of the register.
ghost use Rattle.std.specs.Prelude.{◌≡◌};
ghost use Rattle.market.specs.Sound.{sound_path_count};

use crate::engine::Engine;
use crate::units::{Balance, Cents, Day, Megawatts};

// The direction of a path: on X power leaves Ontario, on M it comes in.
#[derive(Clone, Copy, Debug, PartialEq, Eq)]
pub enum Direction {
    Export,
    Import,
}

// Where a path leads: its direction, and its zone outside Ontario.
#[derive(Clone, Copy, Debug, PartialEq, Eq)]
pub struct Route {
    pub direction: Direction,
    pub zone: u32,
}

// A path (rule 2.2): its route, the MW that the auction offers, and the MW of them that rounds have sold.
#[derive(Clone, Copy, Debug, PartialEq, Eq)]
pub struct Path {
    pub direction: Direction,
    pub zone: u32,
    pub offer: Megawatts,
    pub sold: Megawatts,
}

// The kind of an auction: S, short-term, or L, long-term.
#[derive(Clone, Copy, Debug, PartialEq, Eq)]
pub enum Kind {
    Short,
    Long,
}

// The days of a right, first and last.
#[derive(Clone, Copy, Debug, PartialEq, Eq)]
pub struct Period {
    pub first: Day,
    pub last: Day,
}

// The stage (rule 2.6): no auction is open, or one is, of a kind, with the number of its next round and the period of its rights.
#[derive(Clone, Copy, Debug, PartialEq, Eq)]
pub enum Stage {
    Idle,
    Open {
        kind: Kind,
        round: u32,
        period: Period,
    },
}

// A bidder's account with the market.
#[derive(Clone, Copy, Debug, PartialEq, Eq)]
pub struct Bidder {
    pub cash: Cents,
    pub applied: Cents,
    pub letter: Cents,
    pub hold: Cents,
    pub owed: Cents,
    pub step: u32,
}

// The book. Of `paths` the first `path_count` are the book's; `entries` is the register's count.
#[derive(Clone, Copy, Debug, PartialEq, Eq)]
pub struct Book {
    pub paths: [Path; Engine::PATHS],
    pub path_count: usize,
    pub bidders: [Bidder; Engine::BIDDERS],
    pub account: Balance,
    pub entries: usize,
    pub stage: Stage,
}

// One entry of the register: a bidder's right on a path. `state` is Engine::PENDING or Engine::ISSUED; lent words
// may hold any other number there, which makes the entry unsound.
#[derive(Clone, Copy, Debug, PartialEq, Eq)]
pub struct Entry {
    pub bidder: u32,
    pub path: u32,
    pub quantity: Megawatts,
    pub period: Period,
    pub state: u32,
}

// Whether a number of paths is one that a book may have.
pub fn sound_path_count(n: usize) -> bool
    ensures { result ≡ sound_path_count n }
{
    (1 <= n) & (n <= Engine::PATHS)
}
