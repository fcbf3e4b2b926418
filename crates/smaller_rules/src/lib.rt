// The rules of a smaller book, one record after another: counted, and written where the lent room holds them.
#![tactic(auto)]

ghost use Rattle.std.specs.Prelude.{◌≡◌, true, ◌+◌, ◌*◌, ◌<◌, ◌≤◌};
ghost use Rattle.paper.specs.Limits.{max_events, max_marks};
ghost use Rattle.sets.specs.Set.{union, within};
ghost use Rattle.wide.specs.Number.{number};
ghost use Rattle.flat_chart.specs.Numbers.{lent_of, row_numbers};
ghost use Rattle.general.specs.Lists.{flat, packed};
ghost use Rattle.general.specs.Writing.{Ran};
ghost use Rattle.book.specs.ImageOf.{rule_record, rule_bytes};
ghost use Rattle.derived.specs.Parts.{CompletionsIn};
ghost use Rattle.smaller.specs.Runs.{Under, effects_by, condition_by, stage_by};
ghost use Rattle.smaller.specs.Keeping.{keeping_of, completion_kept, completions_kept};

use book::rules::{
    EFFECT_CLEAR, EFFECT_SET, SENSE_AS_WRITTEN, SENSE_NEGATED, SENSE_NONE, TRIGGER_NONE,
};
use flat_chart::{LentChart, Row};
use paper::{MAX_EVENTS, RULE_SIZE};
use smaller::Kept;
use wide::Set;

// On completion of e, for each f of among, rising: set the mark with the old number base + f where f is in raise, and else clear it.
// This and every function below hands back the place behind its run, written or not: the room is tested once for the run.
fn put_effects(
    room: &mut [u8],
    at: usize,
    kept: Kept<'_>,
    e: usize,
    raise: Set,
    among: Set,
    base: usize,
) -> usize
    requires { (kept.n ≤ max_events) × (e < kept.n) × (base + kept.n ≤ max_marks) × (within kept.n (number among) ≡ true) × Under at (packed rule_bytes (effects_by kept.table.now kept.n e (number raise) (number among) base)) }
    ensures { Ran room.old at (packed rule_bytes (effects_by kept.entry.table.now kept.entry.n e (number raise) (number among) base)) result room.new }
{
    let end = at + RULE_SIZE * wide::count(among) as usize;
    if room.len() < end {
        return end;
    }
    let mut rest = among;
    let mut next = at;
    while !wide::is_empty(rest) {
        let f = wide::least(rest) as usize;
        let mark = kept.table[base + f] as usize;
        next = rule_writer::put_on(room, next, e, wide::member(raise, f), mark);
        rest = wide::less(rest, wide::one(f));
    }
    next
}

// Everything on the completion of e, whose sets the row has.
pub fn put_completion(room: &mut [u8], at: usize, kept: Kept<'_>, e: usize, row: Row) -> usize
    requires { (kept.n ≤ max_events) × (e < kept.n) × (within kept.n (union (number row.includes) (number row.excludes)) ≡ true) × (within kept.n (number row.responses) ≡ true) × Under at (packed rule_bytes (completion_kept (keeping_of kept) e (row_numbers row))) }
    ensures { Ran room.old at (packed rule_bytes (completion_kept (keeping_of kept.entry) e (row_numbers row))) result room.new }
{
    let n = kept.n;
    let own = wide::one(e);
    let changed = wide::meet(wide::join(row.includes, row.excludes), kept.included);
    let answers = wide::meet(wide::less(own, row.responses), kept.answered);
    let done = wide::meet(own, kept.executed);
    let none = wide::empty();
    let a = put_effects(room, at, kept, e, row.includes, changed, 2 * n);
    let b = put_effects(room, a, kept, e, none, row.responses, 3 * n);
    let c = put_effects(room, b, kept, e, own, answers, 3 * n);
    put_effects(room, c, kept, e, own, done, n)
}

// The rules on every event's completion, one event behind another.
pub fn put_completions(room: &mut [u8], at: usize, kept: Kept<'_>, chart: LentChart<'_>) -> usize
    requires { (kept.n ≤ max_events) × CompletionsIn kept.n (lent_of chart).includes (lent_of chart).excludes (lent_of chart).responses × Under at (packed rule_bytes (flat kept.n (completions_kept (keeping_of kept) (lent_of chart)))) }
    ensures { Ran room.old at (packed rule_bytes (flat kept.entry.n (completions_kept (keeping_of kept.entry) (lent_of chart.entry)))) result room.new }
{
    let mut next = at;
    for e in 0..kept.n {
        next = put_completion(room, next, kept, e, chart.row(e));
    }
    next
}

// A rule without trigger.
fn put_free(room: &mut [u8], at: usize, sense: u8, effect: u8, condition: u16, target: u16) -> usize
    requires { Under at (rule_record 0 sense effect 0 condition target) }
    ensures { Ran room.old at (rule_record 0 sense effect 0 condition target) result room.new }
{
    let next = at + RULE_SIZE;
    if next <= room.len() {
        rule_writer::put_rule(room, at, TRIGGER_NONE, sense, effect, 0, condition, target);
    }
    next
}

// Without trigger: set stage e if its condition, and clear it if not; where no text is left, set it.
fn put_stage(
    room: &mut [u8],
    at: usize,
    e: usize,
    condition: usize,
    sizes: &[usize; MAX_EVENTS],
) -> usize
    requires { (e < max_events) × (condition ≡ condition_by sizes.now e) × Under at (packed rule_bytes (stage_by sizes.now e)) }
    ensures { Ran room.old at (packed rule_bytes (stage_by sizes.now e)) result room.new }
{
    let stage = e as u16;
    let condition = condition as u16;
    if sizes[e] == 0 {
        return put_free(room, at, SENSE_NONE, EFFECT_SET, 0, stage);
    }
    let next = put_free(room, at, SENSE_AS_WRITTEN, EFFECT_SET, condition, stage);
    put_free(room, next, SENSE_NEGATED, EFFECT_CLEAR, condition, stage)
}

// The rules of every stage: a condition's number is how many texts before it are left.
pub fn put_stages(room: &mut [u8], at: usize, n: usize, sizes: &[usize; MAX_EVENTS]) -> usize
    requires { (n ≤ max_events) × Under at (packed rule_bytes (flat n (stage_by sizes.now))) }
    ensures { Ran room.old at (packed rule_bytes (flat n (stage_by sizes.now))) result room.new }
{
    let mut next = at;
    let mut condition = 0;
    for e in 0..n {
        next = put_stage(room, next, e, condition, sizes);
        if sizes[e] != 0 {
            condition += 1;
        }
    }
    next
}
