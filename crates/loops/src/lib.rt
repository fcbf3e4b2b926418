// The lowest mark targeted by a rule on a loop among the rules that count for some stage.
#![tactic(auto)]

ghost use Rattle.std.specs.Prelude.{◌≡◌, ◌<◌};
ghost use Rattle.general.specs.Below.{found};
ghost use Rattle.wide.specs.Number.{number};
ghost use Rattle.book.specs.Image.{rules_in, book_of};
ghost use Rattle.book.specs.WellFormed.{WellFormed};
ghost use Rattle.book.specs.WellRead.{Opened};
ghost use Rattle.texts.specs.Noted.{NamedIn};
ghost use Rattle.loops.specs.Gathering.{with_stage, lower};
ghost use Rattle.loop_search.specs.Places.{loop_place};
ghost use Rattle.loop_search.specs.Searching.{searching};

use book::Counts;
use book::rules::{NUMBER_AT, SENSE_AS_WRITTEN, SENSE_AT, TRIGGER_COMPLETED};
use loop_chances::may_loop;
use loop_search::stage_place;
use paper::{BOOK_HEADER, RULE_SIZE};
use texts::references::MARK_WORDS;
use unwritten::Scratch;
use wide::Set;

// The set with the stage whose completion triggers rule r, if that rule has a condition.
#[tactic(auto, unfolding(crate::specs::Gathering::with_stage))]
fn with_stage(image: &[u8], r: usize, set: Set) -> Set
    requires { (WellFormed image.now) × (r < rules_in image.now) }
    ensures { number result ≡ with_stage image.now (number set) r }
{
    let at = BOOK_HEADER + RULE_SIZE * r;
    if image[at] != TRIGGER_COMPLETED || image[at + SENSE_AT] < SENSE_AS_WRITTEN {
        return set;
    }
    let stage = wire::u16_at(image, at + NUMBER_AT) as usize;
    wide::join(set, wide::one(stage))
}

// The stages that have a completion rule with a condition: one pass over the rules.
fn searching(image: &[u8], rules: usize) -> Set
    requires { (WellFormed image.now) × (rules ≡ rules_in image.now) }
    ensures { number result ≡ searching (book_of image.now) }
{
    let mut set = wide::empty();
    for r in 0..rules {
        set = with_stage(image, r, set);
    }
    set
}

// The lower of two places, where there are any.
#[tactic(auto, unfolding(loop_search::specs::Places::lesser))]
fn lower(a: Option<usize>, b: Option<usize>) -> Option<usize>
    ensures { result ≡ lower a b }
{
    match (a, b) {
        (Some(x), Some(y)) => Some(x.min(y)),
        (Some(x), None) => Some(x),
        (None, place) => place,
    }
}

// The lowest place of the stages in the set, which has one.
fn searched_place(image: &[u8], counts: Counts, set: Set, scratch: &mut Scratch) -> Option<usize>
    requires { (Opened image.now counts) × (number set ≡ searching (book_of image.now)) × (number set ≡ 0 → ⊥) }
    ensures { result ≡ found (book_of image.now).marks (loop_place (book_of image.now)) }
{
    let mut least = None;
    let stages = counts.stages;
    for stage in 0..stages {
        if wide::member(set, stage as usize) {
            least = lower(least, stage_place(image, counts, stage, scratch));
        }
    }
    least
}

// The lowest mark that a rule on a loop targets, over all stages. `named` has the marks of the texts; the scratch is lent, whatever it holds.
// A book where no loop is possible, as a derived one, takes one pass over the rules, and no search. Else a completion rule without a condition
// refers to nothing and is on no loop: where no stage has one with a condition, one search among the rules that count for every stage serves
// all; it is asked for `stages`, which no rule names. Where some stages have, these rules count for each of them too, and the searches
// for those stages serve all.
// The worst book has 256 stages with a condition each: 256 running orders, and a search for each of them that gets stuck.
#[tactic(auto, using(crate::proofs::Stages::place_none, crate::proofs::Stages::place_calm, crate::proofs::Stages::place_common))]
pub fn loop_place(
    image: &[u8],
    counts: Counts,
    named: &[u64; MARK_WORDS],
    scratch: &mut Scratch,
) -> Option<usize>
    requires { (Opened image.now counts) × (NamedIn image.now named.now) }
    ensures { result ≡ found (book_of image.now).marks (loop_place (book_of image.now)) }
{
    if counts.stages == 0 {
        return None;
    }
    if !may_loop(image, counts, named) {
        return None;
    }
    let set = searching(image, counts.rules as usize);
    if wide::is_empty(set) {
        return stage_place(image, counts, counts.stages, scratch);
    }
    searched_place(image, counts, set, scratch)
}
