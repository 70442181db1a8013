// Leaf loops over bytes: the exclusive or of stretches that stand evenly spaced in a slice, or, in `picked`, at the numbers that a
// list gives. Nothing here knows what a disk is.
//
// A loop goes by parts of W bytes: 128 at a time, then 32, then 16. Where the length is no multiple of 16, a last part of 16
// overlaps the one before it; only below 16 bytes W is 8 or 1. W is a constant, so the compiler makes a loop for each, and the
// sums and the walks are always inlined, as to call one takes as long as to sum 16 bytes.
#![tactic(auto)]

pub mod cancel;
pub mod fill;
pub mod picked;
pub mod put;
mod stretches;
mod sum;
