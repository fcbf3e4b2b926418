// The index of orders beside a book: how many bytes it takes, and how it is written.
#![tactic(auto)]

pub mod rising;
pub mod sizes;
pub mod spans;
pub mod write;
