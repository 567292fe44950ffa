// The rules of awards and of rival awards, and the theorems about them; no code.
#![tactic(auto)]
