// The planner's working map: which disks are still erased, the two stripes of each in a table, and the number of them on each
// stripe. The planner knows a disk by its stripes only.
#![tactic(auto)]

mod count;
pub mod load;
pub mod scan;
pub mod table;
pub mod take;

// Room that serves every array: for the disks of a map,
pub const DISKS: usize = 256;

// for the table of their stripes,
pub const TABLE: usize = 512;

// and for the counts of the stripes, whose numbers are below 64.
pub const STRIPES: usize = 64;
