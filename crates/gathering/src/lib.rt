// The flat chart behind a book, gathered from its rules in one pass and from its texts in another.
#![tactic(auto)]

ghost use Rattle.std.specs.Prelude.{◌≡◌, true, false, ◌+◌, ◌*◌, ◌≤◌, ◌<◌, length, get_or, set, replicate};
ghost use Rattle.paper.specs.Limits.{max_events, word_size};
ghost use Rattle.wide.specs.Number.{number, rows_of};
ghost use Rattle.flat_chart.specs.Numbers.{flat_of};
ghost use Rattle.flat_chart.specs.Chart.{empty_chart};
ghost use Rattle.book.specs.Book.{text_of};
ghost use Rattle.book.specs.Image.{stages_in, conditions_in, book_of};
ghost use Rattle.book.specs.Read.{words_from};
ghost use Rattle.book.specs.WellRead.{Opened};
ghost use Rattle.gathering.specs.Gathering.{gathered_conditions, gathered_milestones, gathered};
ghost use Rattle.gathering.specs.Noting.{noting};
ghost use Rattle.gathering.specs.Charts.{with_rule, with_rules, with_texts};

use book::header::words_from;
use book::reader::BookReader;
use book::{Counts, Rule, Trigger};
use flat_chart::FlatChart;
use paper::WORD_SIZE;
use wide::{Set, TABLE};

// What a text says of the event that it opens.
#[derive(Clone, Copy)]
pub struct Named {
    pub conditions: Set,
    pub milestones: Set,
}

// The set takes in the event whose mark it is, where the marks of n events begin at `from`.
fn note(set: Set, n: usize, from: usize, mark: u16, on: bool) -> Set
    requires { n ≤ max_events }
    ensures { number result ≡ noting n from (number set) mark on }
{
    match (mark as usize).checked_sub(from) {
        Some(f) if f < n => wide::put_if(set, f, on),
        _ => set,
    }
}

// The same in row e.
fn note_in(table: &mut [u64; TABLE], e: usize, n: usize, from: usize, mark: u16, on: bool)
    requires { (e < max_events) × (n ≤ max_events) }
    ensures { rows_of table.new ≡ set (rows_of table.old) e (noting n from (get_or (rows_of table.old) e 0) mark on) }
{
    let noted = note(wide::row(table, e), n, from, mark, on);
    wide::set_row(table, e, noted);
}

// One rule, of a book of n stages: only those that wait for the completion of a stage say anything.
fn take_rule(r: Rule, n: usize, chart: &mut FlatChart)
    requires { n ≤ max_events }
    ensures { flat_of chart.new ≡ with_rule n r (flat_of chart.old) }
{
    if let Trigger::Completed(stage) = r.trigger {
        let e = stage as usize;
        if e < n {
            note_in(&mut chart.includes, e, n, 2 * n, r.target, r.effect);
            note_in(&mut chart.excludes, e, n, 2 * n, r.target, !r.effect);
            note_in(&mut chart.responses, e, n, 3 * n, r.target, !r.effect);
        }
    }
}

// What the rules say, into tables of empty sets.
pub fn gather_rules(book: BookReader<'_>, chart: &mut FlatChart)
    requires { (Opened book.image.now book.counts) × (rows_of chart.old.includes ≡ replicate max_events 0) × (rows_of chart.old.excludes ≡ replicate max_events 0) × (rows_of chart.old.responses ≡ replicate max_events 0) }
    ensures { flat_of chart.new ≡ with_rules (stages_in book.entry.image.now) (book_of book.entry.image.now).rules (flat_of chart.old) }
{
    let n = book.counts.stages as usize;
    for k in 0..book.counts.rules as usize {
        take_rule(book.rule(k), n, chart);
    }
}

// What a text of so many words from the byte `at` says, in a book of n stages.
fn named_in(image: &[u8], at: usize, count: usize, n: usize) -> Named
    requires { (at + word_size * count ≤ length image.now) × (n ≤ max_events) }
    ensures conditions_value { number result.conditions ≡ gathered_conditions n (words_from image.now at count) }
    ensures milestones_value { number result.milestones ≡ gathered_milestones n (words_from image.now at count) }
{
    let mut conditions = wide::empty();
    let mut milestones = wide::empty();
    for i in 0..count {
        let word = wire::u16_at(image, at + WORD_SIZE * i);
        conditions = note(conditions, n, n, word, true);
        milestones = note(milestones, n, 3 * n, word, true);
    }
    Named {
        conditions,
        milestones,
    }
}

// What condition e says.
fn named_by(book: BookReader<'_>, e: usize) -> Named
    requires { (Opened book.image.now book.counts) × (e < conditions_in book.image.now) }
    ensures conditions_value { number result.conditions ≡ gathered_conditions (stages_in book.entry.image.now) (text_of (book_of book.entry.image.now) e) }
    ensures milestones_value { number result.milestones ≡ gathered_milestones (stages_in book.entry.image.now) (text_of (book_of book.entry.image.now) e) }
{
    let span = book.condition(e);
    let from = words_from(book.counts.rules, book.counts.conditions);
    named_in(
        book.image,
        from + WORD_SIZE * (span.start as usize),
        span.count as usize,
        book.counts.stages as usize,
    )
}

// What the texts say, into tables of empty sets: condition e is stage e's.
pub fn gather_texts(book: BookReader<'_>, chart: &mut FlatChart)
    requires { (Opened book.image.now book.counts) × (stages_in book.image.now ≤ conditions_in book.image.now) × (rows_of chart.old.conditions ≡ replicate max_events 0) × (rows_of chart.old.milestones ≡ replicate max_events 0) }
    ensures { flat_of chart.new ≡ with_texts (stages_in book.entry.image.now) (text_of (book_of book.entry.image.now)) (flat_of chart.old) }
{
    for e in 0..book.counts.stages as usize {
        let named = named_by(book, e);
        wide::set_row(&mut chart.conditions, e, named.conditions);
        wide::set_row(&mut chart.milestones, e, named.milestones);
    }
}

// The chart behind a book that is well formed and has a condition for each stage, into a chart that is still empty.
pub fn gather_into(book: BookReader<'_>, chart: &mut FlatChart)
    requires { (Opened book.image.now book.counts) × (stages_in book.image.now ≤ conditions_in book.image.now) × (flat_of chart.old ≡ empty_chart) }
    ensures { flat_of chart.new ≡ gathered (book_of book.entry.image.now) }
{
    gather_rules(book, chart);
    gather_texts(book, chart);
    chart.count = book.counts.stages;
}

// The same, handed back.
pub fn gather(image: &[u8], counts: Counts) -> FlatChart
    requires { (Opened image.now counts) × (stages_in image.now ≤ conditions_in image.now) }
    ensures { flat_of result ≡ gathered (book_of image.now) }
{
    let mut chart = FlatChart::empty();
    gather_into(BookReader { image, counts }, &mut chart);
    chart
}
