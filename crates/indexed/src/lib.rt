// Completing a stage through the index of its book.
#![tactic(auto)]

pub mod judging;
pub mod running;

ghost use Rattle.std.specs.Prelude.{◌≡◌, length, IfOk};
ghost use Rattle.book.specs.Image.{book_of};
ghost use Rattle.judge.specs.Head.{told};
ghost use Rattle.runner.specs.Completing.{through};
ghost use Rattle.index.specs.Index.{order_of};
ghost use Rattle.indexed.specs.Indexed.{indexed_answer, completing_indexed};

use crate::judging::{judge_index, judge_marks};
use crate::running::{Turned, go_through_index};
use book::Snapshot;
use paper::{Answer, Refusal};

// What completing a stage through the index gives: the answer, the snapshot, and how many rules were evaluated, fired or not.
#[repr(C)]
#[derive(Clone, Copy)]
pub struct IndexedCompletion {
    pub answer: Answer,
    pub snapshot: Snapshot,
    pub evaluated: u32,
}

// 20 to 26, 34, 28, 29, 30, or what every rule of the stage's running order leaves.
fn completed(book: &[u8], index: &[u8], snapshot: Snapshot, stage: u32) -> Result<Turned, Refusal>
    ensures answer { told result ≡ indexed_answer book.now index.now snapshot.marks stage }
    ensures after { IfOk result (λ turned. turned.snapshot.marks ≡ through book.now snapshot.marks stage snapshot.marks (order_of (book_of book.now) stage)) }
    ensures evaluated { IfOk result (λ turned. turned.evaluated ≡ length (order_of (book_of book.now) stage)) }
{
    let counts = judge_index(book, index)?;
    judge_marks(&snapshot.marks, counts, stage)?;
    let turned = go_through_index(book, counts, index, &snapshot.marks, snapshot, stage);
    Ok(turned)
}

// 20 to 26, 34, 28, 29, 30, the snapshot that was given and 0 rules evaluated, or 0, the snapshot after every rule of the stage's running order had
// its turn, and how many that were.
// Cost: the passes of `judge::judge_book` (`judge::check` says which), one over the rules for what counts, two over the rules and one over the texts for
// whether orders rise, and one turn for each rule in the stage's order. Where they rise, as in a derived book, one pass over the index; else for each stage
// a pass over the rules and the scan of its running order. Stack: as for building but for two tables, and some copies of the snapshot.
pub fn complete(book: &[u8], index: &[u8], snapshot: Snapshot, stage: u32) -> IndexedCompletion
    ensures { result ≡ completing_indexed book.now index.now snapshot stage }
{
    match completed(book, index, snapshot, stage) {
        Ok(turned) => IndexedCompletion {
            answer: paper::granted(),
            snapshot: turned.snapshot,
            evaluated: turned.evaluated,
        },
        Err(refusal) => IndexedCompletion {
            answer: Answer::from(refusal),
            snapshot,
            evaluated: 0,
        },
    }
}
