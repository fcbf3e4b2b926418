// What is refused before a rule has its turn: 20 to 26 and 34 of the book and the index, 28 to 30 of the snapshot and the stage.
ghost use Rattle.std.specs.Prelude.{◌≡◌, List, ℕ, ◌≤◌, IfOk};
ghost use Rattle.paper.specs.Limits.{max_events};
ghost use Rattle.paper.specs.Refusals.{answered};
ghost use Rattle.book.specs.Image.{stages_in};
ghost use Rattle.book.specs.Judging.{counts_of};
ghost use Rattle.judge.specs.Head.{told};
ghost use Rattle.indexed.specs.Indexed.{index_answer, open_answer, marks_answer, IndexedWith};

use book::Counts;
use index::sizes::Sizes;
use index_fit::index_same;
use judge::judge_book;
use paper::{MAX_MARKS, Refusal};
use runner::judging::any_from;
use unwritten::Scratch;

// 20 to 26 and 34, or the counts of a book that passes and whose index it is.
pub fn judge_index(book: &[u8], index: &[u8]) -> Result<Counts, Refusal>
    ensures answer { told result ≡ index_answer book.now index.now }
    ensures indexed { IfOk result (λ counts. IndexedWith book.now index.now counts) }
{
    let mut scratch = Scratch::empty();
    let counts = judge_book(book, &mut scratch)?;
    let sizes = Sizes::of(book, counts.rules as usize);
    if !index_same(book, counts, &sizes, &mut scratch, index) {
        return Err(Refusal::IndexUnfit);
    }
    Ok(counts)
}

// 29 and 30, of a book of so many stages.
pub fn judge_open(marks: &[bool; MAX_MARKS], stages: u32, stage: u32) -> Result<(), Refusal>
    requires { stages ≤ max_events }
    ensures { (s : List ℕ) → stages ≡ stages_in s → answered result ≡ open_answer s marks.now stage }
{
    if stages <= stage {
        return Err(Refusal::NoSuchStage);
    }
    if !marks[stage as usize] {
        return Err(Refusal::StageClosed);
    }
    Ok(())
}

// 28, 29 and 30, of a book of these counts.
pub fn judge_marks(marks: &[bool; MAX_MARKS], counts: Counts, stage: u32) -> Result<(), Refusal>
    requires { counts.stages ≤ max_events }
    ensures { (s : List ℕ) → counts ≡ counts_of s → answered result ≡ marks_answer s marks.now stage }
{
    if any_from(marks, counts.marks as usize) {
        return Err(Refusal::MarkAbove);
    }
    judge_open(marks, counts.stages, stage)
}
