// The rules that are not yet written: which they are, as bits, how many of them target each mark, and for which marks there is one.
#![tactic(auto)]

pub mod waiting;
pub mod written;

ghost use Rattle.std.specs.Prelude.{◌≡◌};
ghost use Rattle.unwritten.specs.Scratch.{empty_scratch};

use crate::written::RULE_WORDS;
use paper::{MAX_CONDITIONS, MAX_MARKS};
use texts::references::MARK_WORDS;

// What the passes over a stage's rules work in, 24,800 bytes, lent with any content: how many rules that are not yet written target each mark, the set of the marks for which
// there is one, which rules are written, and how far each condition's text was read.
#[derive(Drop)]
pub struct Scratch {
    pub targeted: [u32; MAX_MARKS],
    pub waits: [u64; MARK_WORDS],
    pub written: [u64; RULE_WORDS],
    pub free: [u32; MAX_CONDITIONS],
}

impl Scratch {
    pub fn empty() -> Scratch
        ensures { result ≡ empty_scratch }
    {
        Scratch {
            targeted: [0; MAX_MARKS],
            waits: [0; MARK_WORDS],
            written: [0; RULE_WORDS],
            free: [0; MAX_CONDITIONS],
        }
    }
}
