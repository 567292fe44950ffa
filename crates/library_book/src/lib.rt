// A book in lent 64-bit words: decoded, encoded, and whether words encode one.
// Seven words are in front, then four for each slot of a path and six for each bidder. The account, which is signed, is kept beside the words.
#![tactic(auto)]

pub mod decode;
pub mod encode;
mod parts;
pub mod valid;

use crate::parts::Part;
use market::book::{Bidder, Path};
use market::engine::Engine;

pub const FRONT_WORDS: usize = 7;

pub const PATH_WORDS: usize = Path::WORDS;

pub const BIDDER_WORDS: usize = Bidder::WORDS;

pub const BIDDERS_FROM: usize = FRONT_WORDS + Engine::PATHS * PATH_WORDS;

pub const BOOK_WORDS: usize = BIDDERS_FROM + Engine::BIDDERS * BIDDER_WORDS;
