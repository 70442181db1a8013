// What is right: specs/ says what the array, its parities and each call are, and proofs/ says what follows from that. The types are
// those that the definitions and the calls share, and the number of a refusal is the only code.
#![tactic(auto)]

pub mod answer;

// The size of an array, which every call takes: data rows and data columns (paper 02: a and b).
#[derive(Clone, Copy)]
pub struct Size {
    pub rows: usize,
    pub columns: usize,
}
