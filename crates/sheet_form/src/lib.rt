// What a sheet is: its form with the first faulty line, the places of its sections, what its lines say.
#![tactic(auto)]

pub mod form;
pub mod place;
pub mod rows;
