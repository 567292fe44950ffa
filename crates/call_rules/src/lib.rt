// How every call is stated, and what holds of all calls that are stated so; no code.
// Rules are in `specs/`, what holds of each in `proofs/`.
#![tactic(auto)]
