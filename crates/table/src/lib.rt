// A table: where its records lie and what stands there, and whether its size is right.
#![tactic(auto)]

pub mod kinds;
pub mod records;
pub mod sizes;
