// The marks of the snapshot that matches a marking.
ghost use Rattle.std.specs.Prelude.{◌≡◌, ◌+◌, ◌≤◌};
ghost use Rattle.std.proofs.lemmas.List.Edits.{sets};
ghost use Rattle.paper.specs.Limits.{max_marks};
ghost use Rattle.sets.specs.Set.{has};
ghost use Rattle.wide.specs.Number.{number};
ghost use Rattle.flat_chart.specs.Numbers.{lent_of};
ghost use Rattle.graph.specs.Numbers.{marks_of};
ghost use Rattle.general.specs.Lists.{each};
ghost use Rattle.deriver.specs.Matching.{matching_of};

use crate::Matched;
use book::Snapshot;
use flat_chart::LentChart;
use graph::Marking;
use paper::{Answer, MAX_MARKS, Refusal};
use wide::Set;

// The n marks from a place on say which of the first n events are in the set.
fn put_marks(marks: &mut [bool; MAX_MARKS], at: usize, n: usize, set: Set)
    requires { at + n ≤ max_marks }
    ensures { marks.new ≡ sets marks.old at (each n (has (number set))) }
{
    for e in 0..n {
        marks[at + e] = wide::member(set, e);
    }
}

// Matching a lent chart: what `matching` does, with no copy of the chart.
#[tactic(auto, using(graph::specs::Steps::fit_few))]
pub fn matching_in(marking: Marking, chart: LentChart<'_>) -> Matched
    ensures { result ≡ matching_of (lent_of chart.entry) (marks_of marking) }
{
    let mut marks = [false; MAX_MARKS];
    if !marking.fits(chart) {
        return Matched {
            answer: Answer::from(Refusal::Unfit),
            snapshot: Snapshot { marks },
        };
    }
    let n = chart.count as usize;
    let answered = wide::less(wide::all_below(n), marking.pending);
    put_marks(&mut marks, 0, n, marking.open_among(chart));
    put_marks(&mut marks, n, n, marking.executed);
    put_marks(&mut marks, 2 * n, n, marking.included);
    put_marks(&mut marks, 3 * n, n, answered);
    Matched {
        answer: paper::granted(),
        snapshot: Snapshot { marks },
    }
}
