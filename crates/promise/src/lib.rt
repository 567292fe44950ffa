// The promise over every list of calls: what it says in `specs/`, the theorem in `proofs/`; no code.
#![tactic(auto)]
