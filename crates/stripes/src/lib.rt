// What is right of any stripe system: which disks lie on which stripes, codewords, repairs and cycles. This crate has no code:
// specs/ has the definitions, and proofs/ what follows from them. Nothing here knows rows, columns or sheets.
#![tactic(auto)]

// A stretch of the block: `width` bytes from `offset` on, in blocks of `block` bytes. It lies within the block where
// offset + width is at most block.
#[derive(Clone, Copy)]
pub struct Stretch {
    pub block: usize,
    pub offset: usize,
    pub width: usize,
}
