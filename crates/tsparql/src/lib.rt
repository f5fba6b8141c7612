// The definitions of document 01 (specs/) and the laws about them (proofs/). The crate has no code.
#![tactic(auto)]
