// Sums over stripes, at every place of a stretch of the block: which one is not zero, and a block that becomes the sum of the
// others of its stripe. Nothing is tested here; the calls do that.
#![tactic(auto)]

pub mod cut;
pub mod nonzero;
pub mod repair;
