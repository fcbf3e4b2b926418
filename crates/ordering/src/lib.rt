// The order of the rules that count for a stage: which rule may stand next, the running order, and whether a given order is fit.
#![tactic(auto)]

pub mod fit;
pub mod ready;
pub mod running;
pub mod scan;
