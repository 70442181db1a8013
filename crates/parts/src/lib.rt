// The parts that erased disks join the stripes into, and what follows for each erased disk: the survivors determine it unless
// the others join its two stripes. Two tables have a place for each stripe: the name of its part, and its way, the set of the links
// between it and the stripe that names the part. A link is an erased disk that joined two parts, and its number is the name that it
// ended.
#![tactic(auto)]

pub mod join;
pub mod link;
pub mod lost;
pub mod side;
pub mod table;
