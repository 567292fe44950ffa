// What the lines of a sheet say.
use market::book::Direction;
use market::engine::Engine;

// A bidder's line: bidder, cash and letter.
#[derive(Clone, Copy)]
pub struct BidderLine {
    pub bidder: u64,
    pub cash: u64,
    pub letter: u64,
}

// A path's line, after its number: direction, zone, base, FUL, A and B.
#[derive(Clone, Copy)]
pub struct PathLine {
    pub direction: Direction,
    pub zone: u32,
    pub base: u32,
    pub upper: u32,
    pub first: u32,
    pub second: u32,
}

// The bidders' lines of a sheet, in as many slots as a book has bidders, and how many lines there are.
#[derive(Clone, Copy)]
pub struct BidderRows {
    pub count: usize,
    pub lines: [BidderLine; Engine::BIDDERS],
}

// The first paths' lines of a sheet, in as many slots as a book has paths, and how many lines there are in all.
#[derive(Clone, Copy)]
pub struct PathRows {
    pub count: usize,
    pub lines: [PathLine; Engine::PATHS],
}
