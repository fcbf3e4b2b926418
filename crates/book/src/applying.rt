// A fired rule sets or clears its target, in the snapshot as it stands.
ghost use Rattle.std.specs.Prelude.{◌≡◌, ◌↔◌, false, ◌<◌, length};
ghost use Rattle.paper.specs.Limits.{max_marks};
ghost use Rattle.book.specs.Effects.{effect_on};

use crate::{Rule, Snapshot};
use paper::MAX_MARKS;

// The one mark is stored where it stands.
pub fn apply(s: &mut Snapshot, r: Rule)
    requires { r.target < max_marks }
    ensures { s.new.marks ≡ effect_on s.old.marks r }
{
    let at = r.target as usize;
    s.marks[at] = r.effect;
}

// With plain values: whoever calls it needs no walk.
pub fn applied(s: Snapshot, r: Rule) -> Snapshot
    requires { r.target < max_marks }
    ensures { result.marks ≡ effect_on s.marks r }
{
    let mut t = s;
    apply(&mut t, r);
    t
}

// Whether a fired rule alters its target.
pub fn alters(marks: &[bool; MAX_MARKS], r: Rule) -> bool
    requires { (r.target < max_marks) × (length marks.now ≡ max_marks) }
    ensures { (result ≡ false) ↔ (effect_on marks.now r ≡ marks.now) }
{
    marks[r.target as usize] != r.effect
}
