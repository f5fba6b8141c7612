// The grammar of typed queries and what a text means (specs/), and the laws about them (proofs/). The crate has no code.
#![tactic(auto)]
