// The steps of mending, and the number by which an entry tells each.
ghost use Rattle.std.specs.Prelude.{◌≡◌, ltb};
ghost use Rattle.mend_writer.specs.Numbers.{step_number};

use paper::{MEND_FLAGS, MEND_GROUP, MEND_LOOP, MEND_PARENT, MEND_RELATION};

// Four over the nodes, in their order, and one over the relations.
#[derive(Clone, Copy)]
pub enum Step {
    // a parent that does not exist goes
    Parent,
    // flags that mean nothing go
    Flags,
    // the lowest node of a loop is cut from its parent
    Loop,
    // a group's state goes
    Group,
    // a relation whose record is bad goes
    Relation,
}

impl Step {
    pub fn number(self) -> u16
        ensures { result ≡ step_number self }
    {
        match self {
            Step::Parent => MEND_PARENT,
            Step::Flags => MEND_FLAGS,
            Step::Loop => MEND_LOOP,
            Step::Group => MEND_GROUP,
            Step::Relation => MEND_RELATION,
        }
    }

    pub fn is_after(self, other: Step) -> bool
        ensures { result ≡ ltb (step_number other) (step_number self) }
    {
        other.number() < self.number()
    }
}
