// The rules of a derived book, written into lent room one record after another.
#![tactic(auto)]

ghost use Rattle.std.specs.Prelude.{◌≡◌, true, [], ◌∷◌, ◌+◌, ◌*◌, ◌<◌, ◌≤◌, length};
ghost use Rattle.paper.specs.Limits.{max_events, max_marks, max_rules, rule_size};
ghost use Rattle.sets.specs.Set.{within};
ghost use Rattle.wide.specs.Number.{number};
ghost use Rattle.flat_chart.specs.Numbers.{lent_of};
ghost use Rattle.general.specs.Lists.{flat, packed};
ghost use Rattle.book.specs.ImageOf.{effect_byte, rule_record, rule_bytes};
ghost use Rattle.derived.specs.Derived.{on, answering, stage_rules};
ghost use Rattle.derived.specs.Sizes.{effects, completion_rules, completions_rules};
ghost use Rattle.general.specs.Writing.{Fits, Wrote};
ghost use Rattle.derived.specs.Parts.{CompletionKept, CompletionsKept, completion_of, completions_of};

use book::rules::{
    CONDITION_AT, EFFECT_AT, EFFECT_CLEAR, EFFECT_SET, NUMBER_AT, SENSE_AS_WRITTEN, SENSE_AT,
    SENSE_NEGATED, SENSE_NONE, SPARE_AT, TARGET_AT, TRIGGER_COMPLETED, TRIGGER_NONE,
};
use derived::put_parts;
use flat_chart::LentChart;
use paper::RULE_SIZE;
use wide::{SET_WORDS, Set};

fn flag(b: bool) -> u8
    ensures { result ≡ effect_byte b }
{
    if b { EFFECT_SET } else { EFFECT_CLEAR }
}

// One record. Every writer here hands back the place behind what it wrote.
pub fn put_rule(
    room: &mut [u8],
    at: usize,
    kind: u8,
    sense: u8,
    effect: u8,
    number: u16,
    condition: u16,
    target: u16,
) -> usize
    requires { at + rule_size ≤ length room.old }
    ensures { Wrote room.old at (rule_record kind sense effect number condition target) result room.new }
{
    room[at] = kind;
    room[at + SENSE_AT] = sense;
    room[at + EFFECT_AT] = effect;
    room[at + SPARE_AT] = 0;
    wire::put16(room, at + NUMBER_AT, number);
    wire::put16(room, at + CONDITION_AT, condition);
    wire::put16(room, at + TARGET_AT, target);
    at + RULE_SIZE
}

// On completion of e, set the mark or clear it.
pub fn put_on(room: &mut [u8], at: usize, e: usize, effect: bool, mark: usize) -> usize
    requires { (e < 65536) × (mark < 65536) × (at + rule_size ≤ length room.old) }
    ensures { Wrote room.old at (packed rule_bytes (on e effect mark ∷ [])) result room.new }
{
    put_rule(
        room,
        at,
        TRIGGER_COMPLETED,
        SENSE_NONE,
        flag(effect),
        e as u16,
        0,
        mark as u16,
    )
}

// On completion of e, for each f of one word, rising: set the mark base + f where f is in raise, and else clear it.
fn put_word(room: &mut [u8], at: usize, e: usize, raise: u64, among: u64, base: usize) -> usize
    requires { (e < max_events) × (base ≤ max_marks) × Fits room.old at (packed rule_bytes (effects 64 e raise among base)) }
    ensures { Wrote room.old at (packed rule_bytes (effects 64 e raise among base)) result room.new }
{
    let mut rest = among;
    let mut next = at;
    while rest != 0 {
        let f = sets::least(rest) as usize;
        next = put_on(room, next, e, sets::member(raise, f), base + f);
        rest = sets::less(rest, sets::one(f));
    }
    next
}

// The same for each f of a set, word by word.
fn put_effects(
    room: &mut [u8],
    at: usize,
    n: usize,
    e: usize,
    raise: Set,
    among: Set,
    base: usize,
) -> usize
    requires { (n ≤ max_events) × (e < n) × (base ≤ 3 * max_events) × (within n (number among) ≡ true) × Fits room.old at (packed rule_bytes (effects n e (number raise) (number among) base)) }
    ensures { Wrote room.old at (packed rule_bytes (effects n e (number raise) (number among) base)) result room.new }
{
    let mut next = at;
    for i in 0..SET_WORDS {
        next = put_word(
            room,
            next,
            e,
            wide::word(raise, i),
            wide::word(among, i),
            base + i * 64,
        );
    }
    next
}

// Set answered e, unless e is its own response.
fn put_answer(room: &mut [u8], at: usize, n: usize, e: usize, responses: Set) -> usize
    requires { (n ≤ max_events) × (e < n) × Fits room.old at (packed rule_bytes (answering n e (number responses))) }
    ensures { Wrote room.old at (packed rule_bytes (answering n e (number responses))) result room.new }
{
    if wide::member(responses, e) {
        return at;
    }
    put_on(room, at, e, true, 3 * n + e)
}

// Everything on the completion of e.
pub fn put_completion(room: &mut [u8], at: usize, chart: LentChart<'_>, e: usize) -> usize
    requires { ((lent_of chart).count ≤ max_events) × CompletionKept (lent_of chart) e × (e < (lent_of chart).count) × Fits room.old at (completion_of (lent_of chart) e) }
    ensures { Wrote room.old at (completion_of (lent_of chart.entry) e) result room.new }
{
    let n = chart.count as usize;
    let row = chart.row(e);
    let changed = wide::join(row.includes, row.excludes);
    let none = wide::empty();
    let a = put_effects(room, at, n, e, row.includes, changed, 2 * n);
    let b = put_effects(room, a, n, e, none, row.responses, 3 * n);
    let c = put_answer(room, b, n, e, row.responses);
    put_on(room, c, e, true, n + e)
}

// Everything on the completion of each event.
pub fn put_completions(room: &mut [u8], at: usize, chart: LentChart<'_>) -> usize
    requires { ((lent_of chart).count ≤ max_events) × CompletionsKept (lent_of chart) × Fits room.old at (completions_of (lent_of chart)) }
    ensures { Wrote room.old at (completions_of (lent_of chart.entry)) result room.new }
{
    put_parts(room, at, chart.count as usize, |room, next, e| {
        put_completion(room, next, chart, e)
    })
}

// Without trigger: set stage e if condition e, and clear it if not.
pub fn put_stage(room: &mut [u8], at: usize, e: usize) -> usize
    requires { (e < 65536) × (at + 2 * rule_size ≤ length room.old) }
    ensures { Wrote room.old at (packed rule_bytes (stage_rules e)) result room.new }
{
    let e = e as u16;
    let kind = TRIGGER_NONE;
    let next = put_rule(room, at, kind, SENSE_AS_WRITTEN, EFFECT_SET, 0, e, e);
    put_rule(room, next, kind, SENSE_NEGATED, EFFECT_CLEAR, 0, e, e)
}

// The two rules of each stage.
pub fn put_stages(room: &mut [u8], at: usize, n: usize) -> usize
    requires { (n ≤ max_events) × Fits room.old at (packed rule_bytes (flat n stage_rules)) }
    ensures { Wrote room.old at (packed rule_bytes (flat n stage_rules)) result room.new }
{
    put_parts(room, at, n, |room, next, e| put_stage(room, next, e))
}

// How many rules the completion of e has: e and its responses together are the events whose answer changes.
fn completion_size(chart: LentChart<'_>, e: usize) -> usize
    requires { e < max_events }
    ensures { result ≡ completion_rules (lent_of chart.entry) e }
{
    let row = chart.row(e);
    let changed = wide::join(row.includes, row.excludes);
    let answers = wide::join(row.responses, wide::one(e));
    wide::count(changed) as usize + wide::count(answers) as usize + 1
}

// How many rules the completions have.
pub fn completions_size(chart: LentChart<'_>) -> usize
    requires { ((lent_of chart).count ≤ max_events) × CompletionsKept (lent_of chart) }
    ensures { (result ≡ completions_rules (lent_of chart.entry)) × (result + 2 * max_events ≤ max_rules) }
{
    let mut sum: usize = 0;
    for e in 0..chart.count as usize {
        sum += completion_size(chart, e);
    }
    sum
}
