// The runner: completes a stage along a given order of the rules that count for it.
#![tactic(auto)]

ghost use Rattle.std.specs.Prelude.{◌≡◌, IfOk};
ghost use Rattle.judge.specs.Head.{told};
ghost use Rattle.runner.specs.Completing.{completion_answer, through, completing};

use crate::judging::{judge_order, judge_snapshot};
use crate::running::go_through;
use book::Snapshot;
use paper::{Answer, Refusal};

pub mod judging;
pub mod running;

// What completing a stage gives.
#[repr(C)]
#[derive(Clone, Copy)]
pub struct Completion {
    pub answer: Answer,
    pub snapshot: Snapshot,
}

// 20 to 30, or the snapshot after every rule of the order had its turn.
fn completed(
    book: &[u8],
    order: &[u32],
    snapshot: Snapshot,
    stage: u32,
) -> Result<Snapshot, Refusal>
    ensures answer { told result ≡ completion_answer book.now order.now snapshot.marks stage }
    ensures after { IfOk result (λ after. after.marks ≡ through book.now snapshot.marks stage snapshot.marks order.now) }
{
    let counts = judge_order(book, order, stage)?;
    judge_snapshot(&snapshot.marks, counts.marks, stage)?;
    Ok(go_through(book, counts, order, snapshot, stage))
}

// 20 to 30 (29 before 27) and the snapshot that was given, or 0 and the snapshot after every rule of the order had its turn.
// Cost for a fit order: the passes of `judge::judge_book` (`judge::check` says which), one over the rules for what counts, one over the order and the texts
// for 27, and one turn for each entry. Stack: 24 KiB for the scratch that book and order are judged in, 4 in the search for clashes, 16 in that for loops
// and 8 in its scan, and some copies of the snapshot.
pub fn complete(book: &[u8], order: &[u32], snapshot: Snapshot, stage: u32) -> Completion
    ensures { result ≡ completing book.now order.now snapshot stage }
{
    match completed(book, order, snapshot, stage) {
        Ok(after) => Completion {
            answer: paper::granted(),
            snapshot: after,
        },
        Err(refusal) => Completion {
            answer: Answer::from(refusal),
            snapshot,
        },
    }
}
