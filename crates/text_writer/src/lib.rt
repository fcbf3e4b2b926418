// The condition records and texts of a derived book, written into lent room one after another.
#![tactic(auto)]

ghost use Rattle.std.specs.Prelude.{◌≡◌, true, [], ◌∷◌, ◌+◌, ◌*◌, ◌<◌, ◌≤◌, length};
ghost use Rattle.paper.specs.Limits.{max_events, max_marks, max_words, condition_size, word_size, not_word, or_word, and_word};
ghost use Rattle.sets.specs.Set.{within};
ghost use Rattle.wide.specs.Number.{number};
ghost use Rattle.flat_chart.specs.Numbers.{lent_of};
ghost use Rattle.wire.specs.Wire.{bytes16};
ghost use Rattle.general.specs.Lists.{flat, packed};
ghost use Rattle.book.specs.ImageOf.{condition_bytes};
ghost use Rattle.derived.specs.Derived.{listed};
ghost use Rattle.derived.specs.Sizes.{text_words, texts_words};
ghost use Rattle.general.specs.Writing.{Fits, Wrote};
ghost use Rattle.derived.specs.Parts.{condition_made, clause_from, TextKept, TextsKept, records_of, text_of, texts_of};

use book::conditions::COUNT_AT;
use derived::put_parts;
use flat_chart::LentChart;
use paper::{AND, CONDITION_SIZE, NOT, OR};
use wide::{SET_WORDS, Set};

// Words of the text of e.
pub fn text_size(chart: LentChart<'_>, e: usize) -> usize
    requires { e < max_events }
    ensures { result ≡ text_words (lent_of chart.entry) e }
{
    let row = chart.row(e);
    5 * (wide::count(row.conditions) as usize + wide::count(row.milestones) as usize) + 1
}

// Words of all texts.
pub fn texts_size(chart: LentChart<'_>) -> usize
    requires { ((lent_of chart).count ≤ max_events) × TextsKept (lent_of chart) }
    ensures { (result ≡ texts_words (lent_of chart.entry)) × (result ≤ max_words) }
{
    let mut sum: usize = 0;
    for e in 0..chart.count as usize {
        sum += text_size(chart, e);
    }
    sum
}

// One condition record.
pub fn put_condition(room: &mut [u8], at: usize, start: usize, count: usize) -> usize
    requires { (start ≤ max_words) × (count ≤ max_words) × (at + condition_size ≤ length room.old) }
    ensures { Wrote room.old at (packed condition_bytes (condition_made start count ∷ [])) result room.new }
{
    wire::put32(room, at, start as u32);
    wire::put32(room, at + COUNT_AT, count as u32);
    at + CONDITION_SIZE
}

// A record for each event: its text starts where the one before it ends.
pub fn put_conditions(room: &mut [u8], at: usize, chart: LentChart<'_>) -> usize
    requires { ((lent_of chart).count ≤ max_events) × TextsKept (lent_of chart) × Fits room.old at (records_of (lent_of chart)) }
    ensures { Wrote room.old at (records_of (lent_of chart.entry)) result room.new }
{
    let mut next = at;
    let mut start: usize = 0;
    for e in 0..chart.count as usize {
        let count = text_size(chart, e);
        next = put_condition(room, next, start, count);
        start += count;
    }
    next
}

// Not included, or the mark is yes.
fn put_clause(room: &mut [u8], at: usize, included: u16, mark: u16) -> usize
    requires { at + 5 * word_size ≤ length room.old }
    ensures { Wrote room.old at (packed bytes16 (included ∷ (not_word ∷ (mark ∷ (or_word ∷ (and_word ∷ [])))))) result room.new }
{
    wire::put16(room, at, included);
    wire::put16(room, at + 2, NOT);
    wire::put16(room, at + 4, mark);
    wire::put16(room, at + 6, OR);
    wire::put16(room, at + 8, AND);
    at + 10
}

// A clause for each f of one word, rising, on the marks included + f and base + f.
fn put_word(room: &mut [u8], at: usize, included: usize, base: usize, word: u64) -> usize
    requires { (included ≤ max_marks) × (base ≤ max_marks) × Fits room.old at (packed bytes16 (flat 64 (listed (clause_from included base) word))) }
    ensures { Wrote room.old at (packed bytes16 (flat 64 (listed (clause_from included base) word))) result room.new }
{
    let mut rest = word;
    let mut next = at;
    while rest != 0 {
        let f = sets::least(rest) as usize;
        next = put_clause(room, next, (included + f) as u16, (base + f) as u16);
        rest = sets::less(rest, sets::one(f));
    }
    next
}

// A clause for each f of a set, word by word: f is not included, or its mark base + f is yes.
fn put_clauses(room: &mut [u8], at: usize, n: usize, base: usize, set: Set) -> usize
    requires { (n ≤ max_events) × (base ≤ 3 * max_events) × (within n (number set) ≡ true) × Fits room.old at (packed bytes16 (flat n (listed (clause_from (2 * n) base) (number set)))) }
    ensures { Wrote room.old at (packed bytes16 (flat n (listed (clause_from (2 * n) base) (number set)))) result room.new }
{
    let mut next = at;
    for i in 0..SET_WORDS {
        next = put_word(
            room,
            next,
            2 * n + i * 64,
            base + i * 64,
            wide::word(set, i),
        );
    }
    next
}

// The text of e.
pub fn put_text(room: &mut [u8], at: usize, chart: LentChart<'_>, e: usize) -> usize
    requires { ((lent_of chart).count ≤ max_events) × TextKept (lent_of chart) e × (e < (lent_of chart).count) × Fits room.old at (text_of (lent_of chart) e) }
    ensures { Wrote room.old at (text_of (lent_of chart.entry) e) result room.new }
{
    let n = chart.count as usize;
    let row = chart.row(e);
    wire::put16(room, at, (2 * n + e) as u16);
    let next = put_clauses(room, at + 2, n, n, row.conditions);
    put_clauses(room, next, n, 3 * n, row.milestones)
}

// The text of each event.
pub fn put_texts(room: &mut [u8], at: usize, chart: LentChart<'_>) -> usize
    requires { ((lent_of chart).count ≤ max_events) × TextsKept (lent_of chart) × Fits room.old at (texts_of (lent_of chart)) }
    ensures { Wrote room.old at (texts_of (lent_of chart.entry)) result room.new }
{
    put_parts(room, at, chart.count as usize, |room, next, e| {
        put_text(room, next, chart, e)
    })
}
