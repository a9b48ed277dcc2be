// This crate has no code: it holds the theorems that final chains agree and never go back, over the rules of crate `register`.
// specs/Claim.antt states them, proofs/Agreement.antt and Consequences.antt prove them.
#![tactic(auto)]
