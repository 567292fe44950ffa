// The engine's release and the edition of its rules, every limit (rule 1.6), and its fresh book and stage.
ghost use Rattle.std.specs.Prelude.{◌≡◌};
ghost use Rattle.market.specs.Fresh as rules;

use crate::answer::{Answer, Outcome};
use crate::book::{Route, Stage};
use crate::fresh;

#[derive(Clone, Copy)]
pub struct Engine {}

impl Engine {
    pub const RELEASE: u32 = 1;

    pub const RULES: u32 = 1;

    // The book.
    pub const PATHS: usize = 16;

    pub const ZONE_LIMIT: u32 = 15;

    pub const BIDDERS: usize = 32;

    pub const MONEY_LIMIT: u64 = 1_000_000_000_000;

    pub const OWED_LIMIT: u64 = 100_000_000_000_000;

    pub const ROUND_TWO_OWED_LIMIT: u64 = 20_000_000_000_000;

    pub const STEP_LIMIT: u32 = 3;

    pub const ACCOUNT_LIMIT: i64 = 1_000_000_000_000_000;

    pub const ACCOUNT_FLOOR: i64 = -Engine::ACCOUNT_LIMIT;

    pub const QUANTITY_LIMIT: u32 = 9_999;

    pub const DAY_LIMIT: u32 = 65_535;

    // The register.
    pub const ENTRIES: usize = 1_024;

    pub const ENTRY_WORDS: usize = 6;

    pub const REGISTER_WORDS: usize = Engine::ENTRIES * Engine::ENTRY_WORDS;

    pub const PENDING: u32 = 1;

    pub const ISSUED: u32 = 2;

    // The auction.
    pub const QUARTERS: u32 = 4;

    pub const QUANTITY_WORDS: usize = 4;

    pub const LAMINATIONS: u32 = 20;

    pub const PRICE_LIMIT: u64 = 100_000_000;

    pub const MULTIPLIERS: [u64; 4] = [10, 8, 5, 1];

    pub const ADMITTED: u32 = 1;

    pub const OVER: u32 = 0;

    pub const HEADER_WORDS: usize = 4;

    pub const PAIR_WORDS: usize = 2;

    pub const BIDS: usize = 682;

    pub const PAIRS: usize = Engine::BIDDERS * Engine::PATHS;

    pub const BID_LIST_WORDS: usize = 4_096;

    pub const BID_ANSWER_SIZE: usize = 4;

    pub const BID_ANSWER_WORDS: usize = Engine::BIDS * Engine::BID_ANSWER_SIZE;

    pub const PATH_ANSWER_SIZE: usize = 3;

    pub const PATH_ANSWER_WORDS: usize = Engine::PATHS * Engine::PATH_ANSWER_SIZE;

    pub const SCRATCH_WORDS: usize = 2_048;

    // Settlement.
    pub const ZONES: usize = 16;

    pub const ZONE_PRICE_LIMIT: i64 = 1_000_000;

    pub const POOL_LIMIT: u64 = 100_000_000_000;

    pub const RESERVE: u64 = 2_000_000_000;

    pub const COLUMN_LIMIT: u64 = 100_000_000;

    // Sheets.
    pub const SHEET_BYTES: usize = 16_384;

    pub const AWARD_SHEET_BYTES: usize = 65_536;

    pub const DIGITS: usize = 13;

    // The idle stage.
    pub fn idle() -> Stage
        ensures { result ≡ Stage.Idle }
    {
        Stage::Idle
    }

    // A fresh book with the first `count` routes as its paths, or refusal 25 with a book that has no path.
    pub fn fresh(routes: [Route; Engine::PATHS], count: usize) -> Outcome
        ensures { result ≡ rules.fresh routes count }
    {
        if let Err(refusal) = fresh::check(routes, count) {
            let none = [fresh::no_path(); Engine::PATHS];
            return Outcome {
                answer: Err(refusal),
                book: fresh::book_of(none, 0),
            };
        }
        Outcome {
            answer: Ok(Answer::Done),
            book: fresh::book_of(fresh::fresh_paths(routes, count), count),
        }
    }
}
