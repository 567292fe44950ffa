// The starred cases: rows in `specs/`, computed by the rules in `proofs/`; no code.
#![tactic(auto)]
