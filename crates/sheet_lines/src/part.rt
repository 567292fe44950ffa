// The sections of a sheet.

// A section: its lines are the bidders', the paths' or a round's bids.
#[derive(Clone, Copy)]
pub enum Part {
    Bidders,
    Paths,
    Bids,
}

// A line that was read: the bytes that it takes, 0 if it is faulty, and what it asks of the next line.
#[derive(Clone, Copy)]
pub struct Step {
    pub used: usize,
    pub next: u64,
}
