// The texts of a smaller book and their condition records: counted, and written where the lent room holds them.
#![tactic(auto)]

ghost use Rattle.std.specs.Prelude.{◌≡◌, true, not, cond, [], ◌∷◌, ◌++◌, ◌+◌, ◌-◌, ◌*◌, ◌<◌, ◌≤◌, eqb, length, get_or, replicate};
ghost use Rattle.paper.specs.Limits.{max_events, max_words, word_size};
ghost use Rattle.sets.specs.Set.{inter, size, within};
ghost use Rattle.wide.specs.Number.{number};
ghost use Rattle.flat_chart.specs.Numbers.{lent_of, row_numbers};
ghost use Rattle.wire.specs.Wire.{bytes16};
ghost use Rattle.general.specs.Lists.{flat, each, total, packed};
ghost use Rattle.general.specs.Writing.{Fits, Wrote, Ran};
ghost use Rattle.book.specs.ImageOf.{condition_bytes};
ghost use Rattle.derived.specs.Parts.{TextsIn, condition_made};
ghost use Rattle.smaller.specs.Clauses.{alone, guarded, words_of, joiner, spoken_from};
ghost use Rattle.smaller.specs.Runs.{Under, clauses_by, record_by};
ghost use Rattle.smaller.specs.Keeping.{keeping_of, text_kept, texts_kept};

use flat_chart::{LentChart, Row};
use paper::{AND, CONDITION_SIZE, MAX_EVENTS, NOT, OR, WORD_SIZE};
use smaller::Kept;
use wide::Set;

// Words of a run of clauses: one for each mark, "and" behind each but the text's first, and three more for each guard.
fn clause_words(guards: Set, among: Set, first: bool) -> usize
    ensures { result ≡ 2 * size (number among) + 3 * size (inter (number among) (number guards)) - cond first 1 0 }
{
    let guarded = wide::count(wide::meet(among, guards)) as usize;
    let words = 2 * wide::count(among) as usize + 3 * guarded;
    words.saturating_sub(usize::from(first))
}

fn put_word(room: &mut [u8], at: usize, word: u16) -> usize
    requires { at + word_size ≤ length room.old }
    ensures { Wrote room.old at (bytes16 word) result room.new }
{
    wire::put16(room, at, word);
    at + WORD_SIZE
}

// The mark, asked for only where the guard is yes.
fn put_guarded(room: &mut [u8], at: usize, guard: u16, mark: u16) -> usize
    requires { at + 4 * word_size ≤ length room.old }
    ensures { Wrote room.old at (packed bytes16 (words_of (guarded guard mark))) result room.new }
{
    wire::put16(room, at, guard);
    wire::put16(room, at + 2, NOT);
    wire::put16(room, at + 4, mark);
    wire::put16(room, at + 6, OR);
    at + 8
}

// The mark, guarded if its guard is kept.
fn put_test(room: &mut [u8], at: usize, kept: bool, guard: u16, mark: u16) -> usize
    requires { Fits room.old at (packed bytes16 (words_of (cond kept (guarded guard mark) (alone mark)))) }
    ensures { Wrote room.old at (packed bytes16 (words_of (cond kept (guarded guard mark) (alone mark)))) result room.new }
{
    if kept {
        put_guarded(room, at, guard, mark)
    } else {
        put_word(room, at, mark)
    }
}

// A clause of the text that begins at start: every one but the first has "and" behind it.
fn put_clause(room: &mut [u8], start: usize, at: usize, kept: bool, guard: u16, mark: u16) -> usize
    requires { Fits room.old at (packed bytes16 (words_of (cond kept (guarded guard mark) (alone mark)) ++ joiner (eqb at start))) }
    ensures { Wrote room.old at (packed bytes16 (words_of (cond kept (guarded guard mark) (alone mark)) ++ joiner (eqb at start))) result room.new }
{
    let next = put_test(room, at, kept, guard, mark);
    if at == start {
        return next;
    }
    put_word(room, next, AND)
}

// A clause for each f of among, rising, on the mark with the old number base + f, guarded where f is in guards.
// This and every function below hands back the place behind its run, written or not: the room is tested once for the run.
fn put_clauses(
    room: &mut [u8],
    start: usize,
    at: usize,
    kept: Kept<'_>,
    guards: Set,
    base: usize,
    among: Set,
) -> usize
    requires { (kept.n ≤ max_events) × (base ≤ 3 * kept.n) × (start ≤ at) × (within kept.n (number among) ≡ true) × Under at (packed bytes16 (spoken_from (eqb at start) (clauses_by kept.table.now kept.n (number guards) base (number among)))) }
    ensures { Ran room.old at (packed bytes16 (spoken_from (eqb at start) (clauses_by kept.entry.table.now kept.entry.n (number guards) base (number among)))) result room.new }
{
    let end = at + WORD_SIZE * clause_words(guards, among, at == start);
    if room.len() < end {
        return end;
    }
    let mut rest = among;
    let mut next = at;
    while !wide::is_empty(rest) {
        let f = wide::least(rest) as usize;
        let guard = kept.table[2 * kept.n + f];
        let mark = kept.table[base + f];
        next = put_clause(room, start, next, wide::member(guards, f), guard, mark);
        rest = wide::less(rest, wide::one(f));
    }
    next
}

// The text of e, whose sets the row has.
pub fn put_text(room: &mut [u8], at: usize, kept: Kept<'_>, e: usize, row: Row) -> usize
    requires { (kept.n ≤ max_events) × (e < kept.n) × (within kept.n (number row.conditions) ≡ true) × (within kept.n (number row.milestones) ≡ true) × Under at (packed bytes16 (text_kept (keeping_of kept) e (row_numbers row))) }
    ensures { Ran room.old at (packed bytes16 (text_kept (keeping_of kept.entry) e (row_numbers row))) result room.new }
{
    let n = kept.n;
    let own = wide::meet(wide::one(e), kept.included);
    let asked = wide::meet(row.milestones, kept.answered);
    let none = wide::empty();
    let a = put_clauses(room, at, at, kept, none, 2 * n, own);
    let b = put_clauses(room, at, a, kept, kept.included, n, row.conditions);
    put_clauses(room, at, b, kept, kept.included, 3 * n, asked)
}

// The texts of all events, one behind another.
pub fn put_texts(room: &mut [u8], at: usize, kept: Kept<'_>, chart: LentChart<'_>) -> usize
    requires { (kept.n ≤ max_events) × TextsIn kept.n (lent_of chart).conditions (lent_of chart).milestones × Under at (packed bytes16 (flat kept.n (texts_kept (keeping_of kept) (lent_of chart)))) }
    ensures { Ran room.old at (packed bytes16 (flat kept.entry.n (texts_kept (keeping_of kept.entry) (lent_of chart.entry)))) result room.new }
{
    let mut next = at;
    for e in 0..kept.n {
        next = put_text(room, next, kept, e, chart.row(e));
    }
    next
}

// How many words the text of each event has: the same run, with no room to write into.
pub fn text_sizes(kept: Kept<'_>, chart: LentChart<'_>) -> [usize; MAX_EVENTS]
    requires { (kept.n ≤ max_events) × TextsIn kept.n (lent_of chart).conditions (lent_of chart).milestones × Under 0 (packed bytes16 (flat kept.n (texts_kept (keeping_of kept) (lent_of chart)))) }
    ensures { result ≡ each kept.entry.n (λ e. length (texts_kept (keeping_of kept.entry) (lent_of chart.entry) e)) ++ replicate (max_events - kept.entry.n) 0 }
{
    let mut sizes = [0; MAX_EVENTS];
    let mut none = [0; 1];
    for e in 0..kept.n {
        let bytes = put_text(&mut none, 0, kept, e, chart.row(e));
        sizes[e] = bytes / WORD_SIZE;
    }
    sizes
}

// The record of a text, if it has words.
fn put_record(room: &mut [u8], at: usize, start: usize, count: usize) -> usize
    requires { (start ≤ max_words) × (count ≤ max_words) × Under at (packed condition_bytes (cond (not (eqb count 0)) (condition_made start count ∷ []) [])) }
    ensures { Ran room.old at (packed condition_bytes (cond (not (eqb count 0)) (condition_made start count ∷ []) [])) result room.new }
{
    if count == 0 {
        return at;
    }
    let next = at + CONDITION_SIZE;
    if next <= room.len() {
        text_writer::put_condition(room, at, start, count);
    }
    next
}

// A record for each text that is left: it starts where the one before it ends.
pub fn put_conditions(room: &mut [u8], at: usize, n: usize, sizes: &[usize; MAX_EVENTS]) -> usize
    requires { (n ≤ max_events) × (total n (λ e. get_or sizes.now e 0) ≤ max_words) × Under at (packed condition_bytes (flat n (record_by sizes.now))) }
    ensures { Ran room.old at (packed condition_bytes (flat n (record_by sizes.now))) result room.new }
{
    let mut next = at;
    let mut start = 0;
    for e in 0..n {
        next = put_record(room, next, start, sizes[e]);
        start += sizes[e];
    }
    next
}
