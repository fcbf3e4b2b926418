// Rule books: the header of the image, its rules and condition records, the reader, and the snapshot that rules alter.
#![tactic(auto)]

ghost use Rattle.std.specs.Prelude.{◌≡◌};
ghost use Rattle.book.specs.Effects.{empty_snapshot};

pub mod applying;
pub mod conditions;
pub mod header;
pub mod reader;
pub mod rules;

// The header's five counts.
#[derive(Clone, Copy)]
pub struct Counts {
    pub stages: u32,
    pub marks: u32,
    pub rules: u32,
    pub conditions: u32,
    pub words: u32,
}

// What a rule waits for.
#[derive(Clone, Copy)]
pub enum Trigger {
    None,
    Completed(u16),
    BecomeYes(u16),
    BecomeNo(u16),
}

// Which condition a rule asks, and in which sense.
#[derive(Clone, Copy)]
pub enum Sense {
    NoCondition,
    AsWritten(u16),
    Negated(u16),
}

// A condition's words: where they start, and how many.
#[derive(Clone, Copy)]
pub struct Span {
    pub start: u32,
    pub count: u32,
}

// A rule decoded from its ten bytes.
#[derive(Clone, Copy)]
pub struct Rule {
    pub trigger: Trigger,
    pub sense: Sense,
    pub effect: bool,
    pub target: u16,
}

// Every mark, yes or no.
#[repr(C)]
#[derive(Clone, Copy)]
pub struct Snapshot {
    pub marks: [bool; paper::MAX_MARKS],
}

impl Snapshot {
    // Every mark no.
    #[tactic(auto, unfolding(crate::specs::Effects::empty_snapshot))]
    pub fn empty() -> Snapshot
        ensures { result ≡ empty_snapshot }
    {
        Snapshot {
            marks: [false; paper::MAX_MARKS],
        }
    }
}
