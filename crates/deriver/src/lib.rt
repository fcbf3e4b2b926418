// Deriving a rule book from a flat chart, and the snapshot that matches a marking.
#![tactic(auto)]

ghost use Rattle.std.specs.Prelude.{◌≡◌, ◌*◌, ◌≤◌, length};
ghost use Rattle.paper.specs.Limits.{max_events, max_rules, max_conditions, book_header};
ghost use Rattle.flat_chart.specs.Numbers.{flat_of, lent_of};
ghost use Rattle.graph.specs.Numbers.{marks_of};
ghost use Rattle.book.specs.ImageOf.{header_bytes};
ghost use Rattle.general.specs.Writing.{Wrote};
ghost use Rattle.deriver.specs.Deriving.{deriving_answer, derived_room, chart_runs, ChartReady};
ghost use Rattle.deriver.specs.Matching.{matching_of};

use book::header::{
    CONDITION_COUNT_AT, CONDITIONS_OFFSET_AT, MARK_COUNT_AT, RULE_COUNT_AT, RULES_OFFSET_AT,
    STAGE_COUNT_AT, WORD_COUNT_AT, WORDS_OFFSET_AT,
};
use book::{Counts, Snapshot};
use flat_chart::{FlatChart, LentChart};
use graph::Marking;
use paper::{Answer, BOOK_HEADER, CONDITION_SIZE, RULE_SIZE, Refusal, WORD_SIZE};

pub mod marks;

// What matching gives: the snapshot, or every mark no beside the refusal.
#[repr(C)]
#[derive(Clone, Copy)]
pub struct Matched {
    pub answer: Answer,
    pub snapshot: Snapshot,
}

// "Header, eight 32-bit numbers": the counts, and where the parts lie.
pub fn put_counts(room: &mut [u8], counts: Counts) -> usize
    requires { (counts.rules ≤ max_rules) × (counts.conditions ≤ max_conditions) × (book_header ≤ length room.old) }
    ensures { Wrote room.old 0 (header_bytes counts.stages counts.marks counts.rules counts.conditions counts.words) result room.new }
{
    let records = BOOK_HEADER + RULE_SIZE * counts.rules as usize;
    let texts = records + CONDITION_SIZE * counts.conditions as usize;
    wire::put32(room, STAGE_COUNT_AT, counts.stages);
    wire::put32(room, MARK_COUNT_AT, counts.marks);
    wire::put32(room, RULE_COUNT_AT, counts.rules);
    wire::put32(room, CONDITION_COUNT_AT, counts.conditions);
    wire::put32(room, WORD_COUNT_AT, counts.words);
    wire::put32(room, RULES_OFFSET_AT, BOOK_HEADER as u32);
    wire::put32(room, CONDITIONS_OFFSET_AT, records as u32);
    wire::put32(room, WORDS_OFFSET_AT, texts as u32);
    BOOK_HEADER
}

// The header of the derived book of n events.
pub fn put_header(room: &mut [u8], n: u32, rules: u32, words: u32) -> usize
    requires { (n ≤ max_events) × (rules ≤ max_rules) × (book_header ≤ length room.old) }
    ensures { Wrote room.old 0 (header_bytes n (4 * n) rules n words) result room.new }
{
    let counts = Counts {
        stages: n,
        marks: 4 * n,
        rules,
        conditions: n,
        words,
    };
    put_counts(room, counts)
}

// The whole book, run behind run.
fn put_book(room: &mut [u8], chart: LentChart<'_>, rules: u32, words: u32) -> usize
    requires { ChartReady (lent_of chart) rules words room.old }
    ensures { Wrote room.old 0 (chart_runs (lent_of chart.entry) rules words) result room.new }
{
    let a = put_header(room, chart.count, rules, words);
    let b = rule_writer::put_completions(room, a, chart);
    let c = rule_writer::put_stages(room, b, chart.count as usize);
    let d = text_writer::put_conditions(room, c, chart);
    text_writer::put_texts(room, d, chart)
}

// Deriving from a lent chart: what `derive` does, with no copy of the chart.
pub fn derive_in(chart: LentChart<'_>, room: &mut [u8]) -> Answer
    ensures { (result ≡ deriving_answer (lent_of chart.entry) (length room.old)) × (room.new ≡ derived_room (lent_of chart.entry) room.old) }
{
    if !chart.is_fit() {
        return Answer::from(Refusal::Unfit);
    }
    let n = chart.count as usize;
    let rules = rule_writer::completions_size(chart) + 2 * n;
    let words = text_writer::texts_size(chart);
    let need = BOOK_HEADER + RULE_SIZE * rules + CONDITION_SIZE * n + WORD_SIZE * words;
    if room.len() < need {
        return Answer::from(Refusal::BookRoom(need as u32));
    }
    put_book(room, chart, rules as u32, words as u32);
    paper::granted()
}

// Writes the derived book of a fit chart into the room, or refuses and writes nothing.
pub fn derive(chart: FlatChart, room: &mut [u8]) -> Answer
    ensures { (result ≡ deriving_answer (flat_of chart) (length room.old)) × (room.new ≡ derived_room (flat_of chart) room.old) }
{
    derive_in(chart.lend(), room)
}

// The snapshot that matches a marking of the chart.
pub fn matching(chart: FlatChart, marking: Marking) -> Matched
    ensures { result ≡ matching_of (flat_of chart) (marks_of marking) }
{
    marks::matching_in(marking, chart.lend())
}
