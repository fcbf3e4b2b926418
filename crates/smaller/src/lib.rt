// What a smaller book is (request xi), and what it keeps, as the code hands it on.
#![tactic(auto)]

use paper::MAX_MARKS;
use wide::Set;

// What a smaller book of n events keeps: the events whose executed, included and answered marks stay, and the new number of each mark by its old one.
#[derive(Clone, Copy)]
pub struct Kept<'a> {
    pub n: usize,
    pub executed: Set,
    pub included: Set,
    pub answered: Set,
    pub table: &'a [u16; MAX_MARKS],
}
