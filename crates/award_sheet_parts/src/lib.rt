// The other parts of an award sheet: its title and its bidders; and the line that takes its place.
#![tactic(auto)]

pub mod bidder_lines;
pub mod refusals;
pub mod title;
