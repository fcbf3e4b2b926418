// What is refused before a rule has its turn: 20 to 26, 29 and 27 of the book, the stage and the order, 28 and 30 of the snapshot.
ghost use Rattle.std.specs.Prelude.{◌≡◌, ◌<◌, IfOk};
ghost use Rattle.paper.specs.Limits.{max_marks};
ghost use Rattle.paper.specs.Refusals.{answered};
ghost use Rattle.judge.specs.Head.{told};
ghost use Rattle.runner.specs.Completing.{order_answer, any_from, snapshot_answer};
ghost use Rattle.runner.specs.Ordered.{OrderedWith};

use book::Counts;
use judge::judge_book;
use ordering::fit::order_fits;
use paper::{MAX_MARKS, Refusal};
use unwritten::Scratch;

// 20 to 26, 29 and 27, or the counts of a book that passes, has the stage, and with which the order is fit.
pub fn judge_order(book: &[u8], order: &[u32], stage: u32) -> Result<Counts, Refusal>
    ensures answer { told result ≡ order_answer book.now order.now stage }
    ensures ordered { IfOk result (λ counts. OrderedWith book.now order.now stage counts) }
{
    let mut scratch = Scratch::empty();
    let counts = judge_book(book, &mut scratch)?;
    if counts.stages <= stage {
        return Err(Refusal::NoSuchStage);
    }
    let rules = counts.rules as usize;
    if !order_fits(book, rules, stage, &mut scratch, order) {
        return Err(Refusal::OrderUnfit);
    }
    Ok(counts)
}

// Whether a mark from m on is yes.
pub fn any_from(marks: &[bool; MAX_MARKS], m: usize) -> bool
    ensures { result ≡ any_from m marks.now }
{
    for x in m..MAX_MARKS {
        if marks[x] {
            return true;
        }
    }
    false
}

// 28 and 30, of a stage that the book has.
#[tactic(auto, unfolding(crate::specs::Completing::snapshot_answer))]
pub fn judge_snapshot(marks: &[bool; MAX_MARKS], most: u32, stage: u32) -> Result<(), Refusal>
    requires { stage < max_marks }
    ensures { answered result ≡ snapshot_answer most marks.now stage }
{
    if any_from(marks, most as usize) {
        return Err(Refusal::MarkAbove);
    }
    if !marks[stage as usize] {
        return Err(Refusal::StageClosed);
    }
    Ok(())
}
