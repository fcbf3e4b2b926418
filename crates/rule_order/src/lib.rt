// What the order of rules goes by: which rules count for a stage, and what they refer to.
#![tactic(auto)]

pub mod counted;
pub mod reading;
pub mod references;
