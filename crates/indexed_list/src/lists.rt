// A list of completions: what is refused before it, and the walk along it.
ghost use Rattle.std.specs.Prelude.{◌≡◌, ◌≤◌, length, IfOk, OnOk};
ghost use Rattle.paper.specs.Limits.{max_list};
ghost use Rattle.book.specs.Image.{book_of};
ghost use Rattle.book.specs.WellRead.{Opened};
ghost use Rattle.judge.specs.Head.{told};
ghost use Rattle.index.specs.Index.{index_image, NoLoops};
ghost use Rattle.indexed.specs.Indexed.{IndexedWith};
ghost use Rattle.indexed_list.specs.InList.{granted_of, reached, looked_in, stopping, placed, before_list};

use crate::ListCompletion;
use book::{Counts, Snapshot};
use indexed::judging::{judge_index, judge_open};
use indexed::running::go_through_index;
use paper::{Answer, MAX_LIST, MAX_MARKS, Refusal};
use runner::judging::any_from;

// 20 to 26, 34, 28 and 38, of a list of so many, or the counts of a book that passes and whose index it is.
pub fn judge_before(
    book: &[u8],
    index: &[u8],
    marks: &[bool; MAX_MARKS],
    many: usize,
) -> Result<Counts, Refusal>
    ensures answer { told result ≡ before_list book.now index.now marks.now many }
    ensures indexed { IfOk result (λ counts. IndexedWith book.now index.now counts) }
    ensures short { OnOk result (many ≤ max_list) }
{
    let counts = judge_index(book, index)?;
    if any_from(marks, counts.marks as usize) {
        return Err(Refusal::MarkAbove);
    }
    if MAX_LIST < many {
        return Err(Refusal::LongList(paper::place_of(many)));
    }
    Ok(counts)
}

// One stage after another, to the first that is not open.
pub fn walk_list(
    book: &[u8],
    counts: Counts,
    index: &[u8],
    snapshot: Snapshot,
    list: &[u32],
) -> ListCompletion
    requires { (Opened book.now counts) × (NoLoops (book_of book.now)) × (index.now ≡ index_image (book_of book.now)) × (length list.now ≤ max_list) }
    ensures { result ≡ record {
      answer = placed (stopping book.now snapshot.marks list.now) (granted_of book.now snapshot.marks list.now);
      granted = granted_of book.now snapshot.marks list.now;
      snapshot = record { marks = reached book.now snapshot.marks list.now };
      evaluated = looked_in book.now snapshot.marks list.now;
    } }
{
    let mut held = snapshot;
    let mut evaluated = 0;
    for j in 0..list.len() {
        let stage = list[j];
        match judge_open(&held.marks, counts.stages, stage) {
            Ok(()) => {}
            Err(refusal) => {
                return ListCompletion {
                    answer: paper::refused(Answer::from(refusal).code, j as u32, 0),
                    granted: j as u32,
                    snapshot: held,
                    evaluated,
                };
            }
        }
        let start = held.marks;
        let next = go_through_index(book, counts, index, &start, held, stage);
        held = next.snapshot;
        evaluated += next.evaluated;
    }
    ListCompletion {
        answer: paper::granted(),
        granted: list.len() as u32,
        snapshot: held,
        evaluated,
    }
}
