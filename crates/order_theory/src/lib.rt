// The theory of orders stands in specs/; it has no code.
#![tactic(auto)]
