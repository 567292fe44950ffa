// What the programs that make lists of calls share: calls through the engine's one function, and their printed lines.
// A line has a call, the refusal's number (0 where it is answered) and what the answer carries; or what the book then holds.
#![tactic(auto)]

pub mod calls;
pub mod cases;
pub mod report;
pub mod same;
pub mod show;
