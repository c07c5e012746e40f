// Stores made by hand, for a program that shows what the test of number 2 says of them and of one damage at a time.
#![tactic(auto)]

pub mod crowds; // crowds.rt: many that wait
pub mod damage; // damage.rt: what the test says, and the pages mended again
pub mod small; // small.rt: a small store
pub mod stale; // stale.rt: many stale entries
