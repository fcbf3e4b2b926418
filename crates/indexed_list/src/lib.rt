// Completing a list of stages through the index of their book.
#![tactic(auto)]

pub mod lists;

ghost use Rattle.std.specs.Prelude.{◌≡◌};
ghost use Rattle.indexed_list.specs.InList.{completing_list};

use crate::lists::{judge_before, walk_list};
use book::Snapshot;
use paper::Answer;

// What completing a list of stages gives: the answer, how many were granted, the snapshot reached, and how many rules the granted ones evaluated.
#[repr(C)]
#[derive(Clone, Copy)]
pub struct ListCompletion {
    pub answer: Answer,
    pub granted: u32,
    pub snapshot: Snapshot,
    pub evaluated: u32,
}

// 20 to 26, 34, 28 and 38 with 0 granted, the snapshot that was given and 0 rules evaluated, or the stages of the list completed one after another
// to the first that is refused: 29 or 30 with its place, or 0; the number granted, the snapshot reached, and the rules that the granted ones evaluated.
// Cost: the book and the index are judged once, as for one completion; then one turn for each rule in the order of each stage that is granted.
// Stack: as for one completion.
pub fn complete_list(book: &[u8], index: &[u8], snapshot: Snapshot, list: &[u32]) -> ListCompletion
    ensures { result ≡ completing_list book.now index.now snapshot list.now }
{
    match judge_before(book, index, &snapshot.marks, list.len()) {
        Ok(counts) => walk_list(book, counts, index, snapshot, list),
        Err(refusal) => ListCompletion {
            answer: Answer::from(refusal),
            granted: 0,
            snapshot,
            evaluated: 0,
        },
    }
}
