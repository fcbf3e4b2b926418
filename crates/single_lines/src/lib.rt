// The two lines of a listing that stand once, written into lent room: the first, with the header's counts, and a refusal's.
#![tactic(auto)]

ghost use Rattle.general.specs.Writing.{Wrote};
ghost use Rattle.writing.specs.Writers.{Space};
ghost use Rattle.single_lines.specs.Text.{counts_line, refusal_line};

use book::Counts;
use paper::Answer;

pub fn counts_line(room: &mut [u8], at: usize, h: Counts) -> usize
    requires { Space room.old at (counts_line h.stages h.marks h.rules h.conditions h.words) }
    ensures { Wrote room.old at (counts_line h.stages h.marks h.rules h.conditions h.words) result room.new }
{
    let a = writing::named(room, at, b"stages ", h.stages);
    let b = writing::named(room, a, b" marks ", h.marks);
    let c = writing::named(room, b, b" rules ", h.rules);
    let d = writing::named(room, c, b" conditions ", h.conditions);
    let e = writing::named(room, d, b" words ", h.words);
    writing::text(room, e, b"\n")
}

// "A refusal of the reader or the deriver prints one line only"
pub fn refusal_line(room: &mut [u8], answer: Answer) -> usize
    requires { Space room.old 0 (refusal_line answer) }
    ensures { Wrote room.old 0 (refusal_line answer) result room.new }
{
    let a = writing::named(room, 0, b"refused ", answer.code);
    let b = writing::named(room, a, b" ", answer.place);
    let c = writing::named(room, b, b" ", answer.other);
    writing::text(room, c, b"\n")
}
