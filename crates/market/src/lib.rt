// The kinds of number, the book, the engine's limits and fresh book, refusals and answers, what a sound book is.
// Every other crate builds on these, and none of them is known here.
#![tactic(auto)]

pub mod answer;
pub mod book;
pub mod engine;
mod fresh;
pub mod units;
