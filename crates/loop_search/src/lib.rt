// The search among the rules that count for one stage.
#![tactic(auto)]

pub mod asking;
pub mod spread;

ghost use Rattle.std.specs.Prelude.{◌≡◌, ◌+◌, ◌≤◌, ◌<◌};
ghost use Rattle.paper.specs.Limits.{max_marks};
ghost use Rattle.general.specs.Below.{found};
ghost use Rattle.book.specs.Image.{rules_in, book_of};
ghost use Rattle.book.specs.Marks.{word_bits};
ghost use Rattle.book.specs.WellFormed.{WellFormed};
ghost use Rattle.book.specs.WellRead.{Opened};
ghost use Rattle.rule_order.specs.Nets.{rules_of};
ghost use Rattle.loop_search.specs.Spreading.{WithHit, Hits};
ghost use Rattle.loop_search.specs.Places.{stage_place};
ghost use Rattle.loop_search.specs.Sources.{SourceFound};

use crate::spread::Reach;
use book::Counts;
use ordering::running::gets_through;
use paper::{MAX_CONDITIONS, MAX_MARKS};
use rule_order::counted::is_counted;
use unwritten::Scratch;
use unwritten::waiting::target_of;

// The set takes in the target of rule r, if it is a source that the rule carries on to itself.
fn with_hit(image: &[u8], r: usize, base: usize, reach: &Reach, hits: u64) -> u64
    requires { (WellFormed image.now) × (r < rules_in image.now) }
    ensures { WithHit image.now base reach.now.reached reach.now.asked r hits result }
{
    let t = target_of(image, r);
    if t < base || 64 <= t - base {
        return hits;
    }
    let i = t - base;
    let from = reach.from_rule(image, r);
    sets::put_if(hits, i, sets::member(from, i))
}

// The sources that some rule carries on to themselves: one pass over the rules.
fn hits_of(image: &[u8], rules: usize, stage: u32, base: usize, reach: &Reach) -> u64
    requires { (WellFormed image.now) × (rules ≡ rules_in image.now) }
    ensures { Hits image.now stage base reach.now.reached reach.now.asked result }
{
    let mut hits = 0;
    for r in 0..rules {
        if is_counted(image, r, stage) {
            hits = with_hit(image, r, base, reach, hits);
        }
    }
    hits
}

// The lowest of the 64 marks from `base` on that a rule on a loop targets, counted from there.
fn source_on_loop(
    image: &[u8],
    counts: Counts,
    stage: u32,
    base: usize,
    reach: &mut Reach,
) -> Option<usize>
    requires { (Opened image.now counts) × (base + word_bits ≤ max_marks) }
    ensures { SourceFound (rules_of image.now stage) base result }
{
    reach.begin(base);
    reach.spread(image, counts, stage);
    let hits = hits_of(image, counts.rules as usize, stage, base, reach);
    if hits == 0 {
        return None;
    }
    Some(sets::least(hits) as usize)
}

// 64 marks at a time.
fn search(image: &[u8], counts: Counts, stage: u32) -> Option<usize>
    requires { Opened image.now counts }
    ensures { result ≡ found (book_of image.now).marks (stage_place (book_of image.now) stage) }
{
    let mut reach = Reach {
        reached: [0; MAX_MARKS],
        asked: [0; MAX_CONDITIONS],
    };
    let marks = counts.marks as usize;
    for base in (0..marks).step_by(64) {
        if let Some(i) = source_on_loop(image, counts, stage, base, &mut reach) {
            return Some(base + i);
        }
    }
    None
}

// The lowest mark that a rule on a loop targets, among the rules that count for a stage. The stage need not be one that the book has. Where
// the running order lists all rules that count, there is no loop and no search. The scratch is lent, whatever it holds. A search takes a
// round for every 64 marks up to the place. A round takes passes over the texts and the rules, at most one for each mark, fewer where rules
// stand before those that refer to their targets, and one more over the rules.
#[tactic(auto, using(crate::proofs::Rounds::through_none))]
pub fn stage_place(image: &[u8], counts: Counts, stage: u32, scratch: &mut Scratch) -> Option<usize>
    requires { Opened image.now counts }
    ensures { result ≡ found (book_of image.now).marks (stage_place (book_of image.now) stage) }
{
    if gets_through(image, counts.rules as usize, stage, scratch) {
        return None;
    }
    search(image, counts, stage)
}
