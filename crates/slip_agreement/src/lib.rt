// This crate has no code: it holds the theorems that slips agree with final chains and with each other, over the rules of crates `register` and `slip`.
// specs/Claims.antt states them, proofs/Agreeing.antt proves them.
#![tactic(auto)]
