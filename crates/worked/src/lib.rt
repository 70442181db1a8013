// Worked cases of the definitions, beside those of paper 01 that stand in model. This crate has no code, only proofs/. It is a crate by itself
// because a case is computed from all that it rests on: in model every wrong definition that is tried would compute them all again.
#![tactic(auto)]
