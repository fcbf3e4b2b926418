// The lowest rule that clashes with some rule.
//
// The marks are taken in rounds. In a round, rules of one mark that set and clear it are summed up by effect, so that most marks are told to have
// no clash from ten words. For each mark that is left the rules are summed up by stage too, and its lowest rule that clashes is the first that has
// another sense than just the opposite of those that may fire beside it. The lowest of these rules begins the lowest pair.
#![tactic(auto)]

ghost use Rattle.std.specs.Prelude.{◌≡◌, ◌&&◌, ◌+◌, ◌*◌, ◌≤◌, ◌<◌, eqb, length, replicate};
ghost use Rattle.paper.specs.Limits.{max_marks};
ghost use Rattle.general.specs.Below.{first};
ghost use Rattle.book.specs.Book.{rule_of};
ghost use Rattle.book.specs.Image.{rules_in, book_of};
ghost use Rattle.book.specs.WellFormed.{WellFormed};
ghost use Rattle.wide.specs.Number.{number};
ghost use Rattle.senses.specs.Senses.{slots};
ghost use Rattle.clashes.specs.Groups.{round_words, Added, Summed, Sides, ByStage, SidesIn, ByStageIn, calm, clashes_any, Found};

use paper::MAX_EVENTS;
use senses::{meets, sense_of, sets_it, side, stages_at, target_of, turn_of, twin, with_sense};
use wide::{SET_WORDS, Set};

// Every stage and no completion, by effect.
const SLOTS: usize = 2 * MAX_EVENTS + 2;

// The most marks of a round: its 1,920 words fit the array that the rules' flags take, which is lent for them.
pub const ROUND: usize = 192;

// The words of a mark's two sets of stages, and all words of a mark in a round.
const STAGE_WORDS: usize = 2 * SET_WORDS;

pub const ROUND_WORDS: usize = STAGE_WORDS + 2;

// ---- the first pass: for each mark of a round and effect the stages, and behind those of all marks the senses

// The words at d take in one more rule, of these stages and this sense.
fn add(work: &mut [u64], n: usize, d: usize, stages: Set, sense: u64)
    requires { (n ≤ max_marks) × (d < 2 * n) × (round_words n ≤ length work.old) }
    ensures { Added n work.old d (number stages) sense work.new }
{
    let all = wide::join(wide::row_in(work, d), stages);
    wide::put_row(work, d, all);
    let at = STAGE_WORDS * n + d;
    let senses = work[at];
    work[at] = with_sense(senses, sense);
}

// Rule r is summed up if it targets one of the n marks from `from` on.
fn sum_rule(image: &[u8], r: usize, from: usize, n: usize, work: &mut [u64])
    requires { (WellFormed image.now) × (r < rules_in image.now) × (from + n ≤ max_marks) × (Summed (book_of image.now) from n r work.old) }
    ensures { (Summed (book_of image.now) from n (r + 1) work.new) × (length work.new ≡ length work.old) }
{
    let target = target_of(image, r);
    if target < from || n <= target - from {
        return;
    }
    let d = side(target - from, sets_it(image, r));
    add(work, n, d, stages_at(turn_of(image, r)), sense_of(image, r));
}

pub fn sum_up(image: &[u8], rules: usize, from: usize, n: usize, work: &mut [u64])
    requires { (WellFormed image.now) × (rules ≡ rules_in image.now) × (from + n ≤ max_marks) × (Summed (book_of image.now) from n 0 work.old) }
    ensures { (Summed (book_of image.now) from n rules work.new) × (length work.new ≡ length work.old) }
{
    for r in 0..rules {
        sum_rule(image, r, from, n, work);
    }
}

// Whether the words of mark i of the round tell that no rules of it clash: no stage is shared, or the senses are two opposite ones.
fn calm(work: &[u64], n: usize, i: usize) -> bool
    requires { (n ≤ max_marks) × (i < n) × (round_words n ≤ length work.now) }
    ensures { result ≡ calm n work.now i }
{
    let shared = wide::meet(wide::row_in(work, 2 * i), wide::row_in(work, 2 * i + 1));
    let at = STAGE_WORDS * n + 2 * i;
    wide::is_empty(shared) || twin(work[at]) == work[at + 1]
}

// ---- the second pass: for one mark, the senses of each stage and effect
fn by_stage(image: &[u8], rules: usize, m: usize, by: &mut [u64; SLOTS])
    requires { (WellFormed image.now) × (rules ≡ rules_in image.now) × (by.old ≡ replicate slots 0) }
    ensures { ByStage (book_of image.now) m rules by.new }
{
    for r in 0..rules {
        if target_of(image, r) == m {
            let at = side(turn_of(image, r), sets_it(image, r));
            let senses = by[at];
            by[at] = with_sense(senses, sense_of(image, r));
        }
    }
}

// Whether rule p, which targets the mark that `by` and the senses of both sides are of, clashes with some rule.
fn clashes_any(image: &[u8], p: usize, by: &[u64; SLOTS], clearing: u64, setting: u64) -> bool
    requires { (WellFormed image.now) × (p < rules_in image.now) × (SidesIn image.now (rule_of (book_of image.now) p).target clearing setting) × (ByStageIn image.now (rule_of (book_of image.now) p).target by.now) }
    ensures { result ≡ clashes_any (book_of image.now) p }
{
    let apart = twin(sense_of(image, p));
    let undone = !sets_it(image, p);
    let turn = turn_of(image, p);
    if turn < MAX_EVENTS {
        let own = by[side(turn, undone)];
        let other = by[side(MAX_EVENTS, undone)];
        meets(own, apart) | meets(other, apart)
    } else if undone {
        meets(setting, apart)
    } else {
        meets(clearing, apart)
    }
}

fn clashes_in(
    image: &[u8],
    p: usize,
    m: usize,
    by: &[u64; SLOTS],
    clearing: u64,
    setting: u64,
) -> bool
    requires { (WellFormed image.now) × (p < rules_in image.now) × (SidesIn image.now m clearing setting) × (ByStageIn image.now m by.now) }
    ensures { result ≡ (eqb (rule_of (book_of image.now) p).target m && clashes_any (book_of image.now) p) }
{
    target_of(image, p) == m && clashes_any(image, p, by, clearing, setting)
}

// The lowest rule below `low` that targets mark m and clashes with some rule, or `low`.
fn lowest_of(image: &[u8], rules: usize, m: usize, low: usize, clearing: u64, setting: u64) -> usize
    requires { (WellFormed image.now) × (rules ≡ rules_in image.now) × (low ≤ rules) × (Sides (book_of image.now) m rules clearing setting) }
    ensures { result ≡ first low (λ p. eqb (rule_of (book_of image.now) p).target m && clashes_any (book_of image.now) p) }
{
    let mut by = [0u64; SLOTS];
    by_stage(image, rules, m, &mut by);
    for p in 0..low {
        if clashes_in(image, p, m, &by, clearing, setting) {
            return p;
        }
    }
    low
}

// The lowest rule that clashes with some rule, of `low` and of those that target the n marks of the round. Marks that are calm cost ten words each,
// others two passes over the rules.
pub fn lowest(image: &[u8], rules: usize, from: usize, n: usize, low: usize, work: &[u64]) -> usize
    requires { (WellFormed image.now) × (rules ≡ rules_in image.now) × (from + n ≤ max_marks) × (Summed (book_of image.now) from n rules work.now) × (Found (book_of image.now) from low) }
    ensures { Found (book_of image.now) (from + n) result }
{
    let mut found = low;
    for i in 0..n {
        if !calm(work, n, i) {
            let at = STAGE_WORDS * n + 2 * i;
            found = lowest_of(image, rules, from + i, found, work[at], work[at + 1]);
        }
    }
    found
}
