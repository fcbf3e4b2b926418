// The check of a book for a stage: loops, clashes and the stage's running order.
#![tactic(auto)]

pub mod image;
pub mod rules;

ghost use Rattle.std.specs.Prelude.{◌≡◌, IfOk, length};
ghost use Rattle.paper.specs.Refusals.{answered};
ghost use Rattle.judge.specs.Head.{told};
ghost use Rattle.judge.specs.Checking.{book_answer, checking, checked_room, PassesWith};

use crate::image::{judge_body, judge_head};
use crate::rules::judge_rules;
use book::Counts;
use ordering::running::running_order;
use paper::{Answer, Refusal, answered};
use texts::references::MARK_WORDS;
use unwritten::Scratch;

// 20 to 26, or the counts of a book that passes.
pub fn judge_book(book: &[u8], scratch: &mut Scratch) -> Result<Counts, Refusal>
    ensures answer { told result ≡ book_answer book.now }
    ensures passes { IfOk result (λ counts. PassesWith book.now counts) }
{
    let mut named = [0u64; MARK_WORDS];
    let counts = judge_head(book)?;
    judge_body(book, counts, &mut named)?;
    judge_rules(book, counts, &named, scratch)?;
    Ok(counts)
}

// 20 to 26, 29 and 31, or nothing and the stage's running order in the room.
fn check_in(book: &[u8], stage: u32, scratch: &mut Scratch, room: &mut [u32]) -> Result<(), Refusal>
    ensures answer { answered result ≡ checking book.now stage (length room.old) }
    ensures room { room.new ≡ checked_room book.now stage room.old }
{
    let counts = judge_book(book, scratch)?;
    if counts.stages <= stage {
        return Err(Refusal::NoSuchStage);
    }
    let rules = counts.rules as usize;
    let counted = running_order(book, rules, stage, scratch, room);
    if room.len() < counted {
        return Err(Refusal::OrderRoom(counted as u32));
    }
    Ok(())
}

// The check for a stage: 20 to 26, 29 and 31, or 0 and the stage's running order in the room.
// Cost: one pass over the rules for 23, one over the condition records and their texts for 24, in which the marks that they name are noted, one over the
// rules for loops, one for each 192 marks for clashes, one for what counts, and the scan of the running order, which reads each text once more.
// A book where some mark may lie on a loop or have a clash takes more: `loops::loop_place` and `clash_search::first_clash` say how much.
// Stack: 24 KiB for the scratch, 8 in the scan, 4 in the search for clashes, and 16 in that for loops. The scratch is made before the head is judged:
// docs/DECISIONS.md says why.
pub fn check(book: &[u8], stage: u32, room: &mut [u32]) -> Answer
    ensures { (result ≡ checking book.now stage (length room.old)) × (room.new ≡ checked_room book.now stage room.old) }
{
    let mut scratch = Scratch::empty();
    answered(check_in(book, stage, &mut scratch, room))
}
