// Deriving a smaller book from a flat chart and a start marking.
#![tactic(auto)]

ghost use Rattle.std.specs.Prelude.{◌≡◌, length};
ghost use Rattle.flat_chart.specs.Numbers.{flat_of, lent_of};
ghost use Rattle.graph.specs.Numbers.{marks_of};
ghost use Rattle.general.specs.Writing.{Ran};
ghost use Rattle.smaller.specs.Keeping.{keeping_of};
ghost use Rattle.smaller_deriver.specs.Calling.{deriving_smaller, smaller_room, refusing_smaller};
ghost use Rattle.smaller_deriver.specs.Book.{book_runs, Ready, Laid, Whole, whole_answer, whole_room};

use book::Counts;
use flat_chart::{FlatChart, LentChart};
use graph::Marking;
use paper::{
    Answer, BOOK_HEADER, CONDITION_SIZE, MAX_EVENTS, MAX_MARKS, NO_MARK, RULE_SIZE, Refusal,
    WORD_SIZE,
};
use smaller::Kept;

pub mod marks;

// What deriving a smaller book gives: the new number of each mark of the full book, 65,535 for one that is dropped or absent, and throughout on a refusal.
#[repr(C)]
#[derive(Clone, Copy)]
pub struct Smaller {
    pub answer: Answer,
    pub table: [u16; MAX_MARKS],
}

// Where the rules, the condition records and the words end.
#[derive(Clone, Copy)]
pub struct Places {
    pub rules: usize,
    pub records: usize,
    pub end: usize,
}

// Everything behind the header, run behind run: counted, and written where the room holds it.
fn put_parts(
    room: &mut [u8],
    at: usize,
    kept: Kept<'_>,
    chart: LentChart<'_>,
    sizes: &[usize; MAX_EVENTS],
) -> Places
    requires { Ready (keeping_of kept) sizes.now (lent_of chart) at }
    ensures { Laid (keeping_of kept.entry) sizes.now (lent_of chart.entry) at result.rules result.records result.end × Ran room.old at (book_runs (keeping_of kept.entry) sizes.now (lent_of chart.entry)) result.end room.new }
{
    let a = smaller_rules::put_completions(room, at, kept, chart);
    let rules = smaller_rules::put_stages(room, a, kept.n, sizes);
    let records = smaller_texts::put_conditions(room, rules, kept.n, sizes);
    let end = smaller_texts::put_texts(room, records, kept, chart);
    Places {
        rules,
        records,
        end,
    }
}

// The book with this many marks: counted by the run that then writes it, if the room holds it.
fn put_book(room: &mut [u8], marks: usize, kept: Kept<'_>, chart: LentChart<'_>) -> Answer
    requires { Whole (keeping_of kept) marks (lent_of chart) }
    ensures { (result ≡ whole_answer (keeping_of kept.entry) marks (lent_of chart.entry) (length room.old)) × (room.new ≡ whole_room (keeping_of kept.entry) marks (lent_of chart.entry) room.old) }
{
    let sizes = smaller_texts::text_sizes(kept, chart);
    let mut none = [0; 1];
    let places = put_parts(&mut none, BOOK_HEADER, kept, chart, &sizes);
    if room.len() < places.end {
        return Answer::from(Refusal::BookRoom(places.end as u32));
    }
    let counts = Counts {
        stages: kept.n as u32,
        marks: marks as u32,
        rules: ((places.rules - BOOK_HEADER) / RULE_SIZE) as u32,
        conditions: ((places.records - places.rules) / CONDITION_SIZE) as u32,
        words: ((places.end - places.records) / WORD_SIZE) as u32,
    };
    deriver::put_counts(room, counts);
    put_parts(room, BOOK_HEADER, kept, chart, &sizes);
    paper::granted()
}

fn refused(answer: Answer) -> Smaller
    ensures { result ≡ refusing_smaller answer }
{
    let table = [NO_MARK; MAX_MARKS];
    Smaller { answer, table }
}

// Deriving a smaller book over a lent chart: what `derive_smaller` does, with no copy of the chart.
#[tactic(auto, using(graph::specs::Steps::fit_few))]
pub fn derive_smaller_in(start: Marking, chart: LentChart<'_>, room: &mut [u8]) -> Smaller
    ensures { (result ≡ deriving_smaller (lent_of chart.entry) (marks_of start) (length room.old)) × (room.new ≡ smaller_room (lent_of chart.entry) (marks_of start) room.old) }
{
    if !start.fits(chart) {
        return refused(Answer::from(Refusal::Unfit));
    }
    let n = chart.count as usize;
    let executed = marks::union_upto(n, chart.conditions);
    let included = marks::included_kept(chart, start);
    let answered = marks::answered_kept(chart, start);
    let numbered = marks::number(n, executed, included, answered);
    let kept = Kept {
        n,
        executed,
        included,
        answered,
        table: &numbered.table,
    };
    let answer = put_book(room, numbered.marks, kept, chart);
    if answer.code != 0 {
        return refused(answer);
    }
    let table = numbered.table;
    Smaller { answer, table }
}

// Writes the smaller book of a fit chart and a fit start marking into the room, and hands back the new mark numbers; or refuses and writes nothing.
pub fn derive_smaller(chart: FlatChart, start: Marking, room: &mut [u8]) -> Smaller
    ensures { (result ≡ deriving_smaller (flat_of chart) (marks_of start) (length room.old)) × (room.new ≡ smaller_room (flat_of chart) (marks_of start) room.old) }
{
    derive_smaller_in(start, chart.lend(), room)
}
