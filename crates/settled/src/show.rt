// Lines of the listing.
ghost use Rattle.std.specs.Prelude.{◌+◌, ◌≤◌};
ghost use Rattle.paper.specs.Limits.{max_marks};

use book::Snapshot;
use paper::{Answer, MAX_MARKS};
use std::io;
use wide::{SET_WORDS, Set};

// Marks are shown by so many.
const SHOWN: usize = 64;

const MARK_NUMBERS: usize = MAX_MARKS / SHOWN;

fn number(rt: &impl Print, n: u64) -> io::Result<()> {
    rt.write_all(b" ")?;
    rt.print(n)
}

fn answered(rt: &impl Print, name: &[u8], answer: Answer) -> io::Result<()> {
    rt.write_all(name)?;
    number(rt, answer.code as u64)?;
    number(rt, answer.place as u64)?;
    number(rt, answer.other as u64)
}

// One case: its name and its answer.
pub fn line(rt: &impl Print, name: &[u8], answer: Answer) -> io::Result<()> {
    answered(rt, name, answer)?;
    rt.write_all(b"\n")
}

// One case with a count and the lowest.
pub fn counted(
    rt: &impl Print,
    name: &[u8],
    answer: Answer,
    count: u32,
    lowest: u32,
) -> io::Result<()> {
    answered(rt, name, answer)?;
    number(rt, count as u64)?;
    number(rt, lowest as u64)?;
    rt.write_all(b"\n")
}

// A set, word by word.
fn set(rt: &impl Print, s: Set) -> io::Result<()> {
    for i in 0..SET_WORDS {
        number(rt, wide::word(s, i))?;
    }
    Ok(())
}

// One case with two sets.
pub fn sets(rt: &impl Print, name: &[u8], answer: Answer, one: Set, other: Set) -> io::Result<()> {
    answered(rt, name, answer)?;
    set(rt, one)?;
    set(rt, other)?;
    rt.write_all(b"\n")
}

// One case that is yes or no.
pub fn told(rt: &impl Print, name: &[u8], yes: bool) -> io::Result<()> {
    rt.write_all(name)?;
    if yes {
        rt.write_all(b" yes\n")
    } else {
        rt.write_all(b" no\n")
    }
}

// The marks from the mark `from` on, of which the mark from + m is worth 2 to the m.
fn worth(marks: &[bool; MAX_MARKS], from: usize) -> u64
    requires { from + 64 ≤ max_marks }
{
    let mut word: u64 = 0;
    for m in 0..SHOWN {
        word = sets::put_if(word, m, marks[from + m]);
    }
    word
}

// One case with a snapshot: every mark, in sixteen numbers.
pub fn marked(rt: &impl Print, name: &[u8], answer: Answer, snapshot: Snapshot) -> io::Result<()> {
    answered(rt, name, answer)?;
    for i in 0..MARK_NUMBERS {
        number(rt, worth(&snapshot.marks, SHOWN * i))?;
    }
    rt.write_all(b"\n")
}

// An order, rule by rule.
pub fn order(rt: &impl Print, name: &[u8], rules: &[u32]) -> io::Result<()> {
    rt.write_all(name)?;
    for j in 0..rules.len() {
        number(rt, widened(rules[j]))?;
    }
    rt.write_all(b"\n")
}

fn widened(n: u32) -> u64 {
    n as u64
}
