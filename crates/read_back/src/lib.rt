// Reading a book back: the flat chart behind a derived book, or a refusal.
#![tactic(auto)]

pub mod judging;

ghost use Rattle.std.specs.Prelude.{◌≡◌, replicate};
ghost use Rattle.paper.specs.Limits.{max_events};
ghost use Rattle.paper.specs.Answers.{granted};
ghost use Rattle.paper.specs.Refusals.{answer_of};
ghost use Rattle.flat_chart.specs.Numbers.{lent_of};
ghost use Rattle.derived_same.specs.Same.{without_roles};
ghost use Rattle.read_back.specs.Numbers.{back_of};
ghost use Rattle.read_back.specs.ReadingBack.{reading_back};
ghost use Rattle.read_back.specs.Written.{written_for, refused_back};

use book::reader::BookReader;
use flat_chart::{FlatChart, LentChart};
use paper::{Answer, Refusal};

#[repr(C)]
#[derive(Clone, Copy)]
pub struct ReadBack {
    pub answer: Answer,
    pub chart: FlatChart,
}

// Whether the chart, which names no roles, is fit and the deriver writes this book for it.
fn written_for(book: &[u8], chart: LentChart<'_>) -> bool
    requires { chart.roles.now ≡ replicate max_events 0 }
    ensures { result ≡ written_for (without_roles (lent_of chart.entry)) book.now }
{
    chart.is_fit() && derived_same::derived_same(book, chart)
}

// Whatever was gathered is put away.
fn refuse(out: &mut ReadBack, refusal: Refusal)
    ensures { back_of out.new ≡ refused_back (answer_of refusal) }
{
    out.answer = Answer::from(refusal);
    out.chart = FlatChart::empty();
}

// 20 to 26 and 33 with the empty chart, or 0 and the chart for which the deriver writes this book: no roles, and no marking, which a book does not carry. It is
// written into what is still empty, and there it stays: a caller that hands it back by value holds it once on its stack.
// Cost: the passes of `judge::judge_book`, one over the rules and one over the texts that gather the chart, and one over the book that compares it.
// Stack: that of `judge::judge_book`.
pub fn read_back_into(book: &[u8], out: &mut ReadBack)
    requires { back_of out.old ≡ refused_back granted }
    ensures { back_of out.new ≡ reading_back book.now }
{
    let counts = match judging::judge_whole(book) {
        Ok(counts) => counts,
        Err(refusal) => return refuse(out, refusal),
    };
    if counts.conditions != counts.stages {
        return refuse(out, Refusal::NotDerived);
    }
    let reader = BookReader {
        image: book,
        counts,
    };
    gathering::gather_into(reader, &mut out.chart);
    if !written_for(book, out.chart.lend()) {
        return refuse(out, Refusal::NotDerived);
    }
    out.answer = paper::granted();
}

// The same, handed back. Stack: 41 KiB more.
pub fn read_back(book: &[u8]) -> ReadBack
    ensures { back_of result ≡ reading_back book.now }
{
    let mut out = ReadBack::empty();
    read_back_into(book, &mut out);
    out
}

impl ReadBack {
    // What a book is read back into.
    pub fn empty() -> ReadBack
        ensures { back_of result ≡ refused_back granted }
    {
        ReadBack {
            answer: paper::granted(),
            chart: FlatChart::empty(),
        }
    }
}
