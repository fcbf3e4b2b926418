// Which marks of a derived book stay, as sets of events, and the table of their new numbers.
ghost use Rattle.std.specs.Prelude.{◌≡◌, ◌+◌, ◌*◌, ◌<◌, ◌≤◌};
ghost use Rattle.std.proofs.lemmas.List.Edits.{sets};
ghost use Rattle.paper.specs.Limits.{max_events, max_marks};
ghost use Rattle.general.specs.Below.{tally};
ghost use Rattle.general.specs.Lists.{each};
ghost use Rattle.sets.specs.Set.{has};
ghost use Rattle.wide.specs.Number.{number, rows_of};
ghost use Rattle.flat_chart.specs.Numbers.{lent_of};
ghost use Rattle.graph.specs.Numbers.{marks_of};
ghost use Rattle.smaller.specs.Kept.{union_upto, included_kept, answered_kept};
ghost use Rattle.smaller_deriver.specs.Marks.{numbered, table_by, marks_by};

use flat_chart::LentChart;
use graph::Marking;
use paper::{MAX_MARKS, NO_MARK};
use wide::{Set, TABLE};

// The new numbers of the marks, and how many there are.
#[derive(Clone, Copy)]
pub struct Numbered {
    pub table: [u16; MAX_MARKS],
    pub marks: usize,
}

// Whatever is in one of the first n sets.
pub fn union_upto(n: usize, table: &[u64; TABLE]) -> Set
    requires { n ≤ max_events }
    ensures { number result ≡ union_upto n (rows_of table.now) }
{
    let mut all = wide::empty();
    for e in 0..n {
        all = wide::join(all, wide::row(table, e));
    }
    all
}

// An event that something includes or excludes, or that starts excluded, keeps its included mark.
#[tactic(auto, unfolding(smaller::specs::Kept::included_by))]
pub fn included_kept(chart: LentChart<'_>, start: Marking) -> Set
    requires { chart.count ≤ max_events }
    ensures { number result ≡ included_kept (lent_of chart.entry) (marks_of start) }
{
    let n = chart.count as usize;
    let a = union_upto(n, chart.includes);
    let b = union_upto(n, chart.excludes);
    let out = wide::less(wide::all_below(n), start.included);
    wide::join(wide::join(a, b), out)
}

// One that is a response, or starts pending, keeps its answered mark.
#[tactic(auto, unfolding(smaller::specs::Kept::answered_by))]
pub fn answered_kept(chart: LentChart<'_>, start: Marking) -> Set
    requires { chart.count ≤ max_events }
    ensures { number result ≡ answered_kept (lent_of chart.entry) (marks_of start) }
{
    let n = chart.count as usize;
    wide::join(union_upto(n, chart.responses), start.pending)
}

// The n marks from a place on: those of the set get the next free numbers. Hands back the number that is free then.
fn number_marks(table: &mut [u16; MAX_MARKS], at: usize, n: usize, set: Set, next: usize) -> usize
    requires { (at + n ≤ max_marks) × (next + n ≤ max_marks) }
    ensures { (result ≡ next + tally n (has (number set))) × (table.new ≡ sets table.old at (each n (numbered (number set) next))) }
{
    let mut free = next;
    for e in 0..n {
        if wide::member(set, e) {
            table[at + e] = free as u16;
            free += 1;
        } else {
            table[at + e] = NO_MARK;
        }
    }
    free
}

// Stages stay; then the executed, included and answered marks that are kept.
pub fn number(n: usize, executed: Set, included: Set, answered: Set) -> Numbered
    requires { n ≤ max_events }
    ensures { (result.table ≡ table_by n (number executed) (number included) (number answered)) × (result.marks ≡ marks_by n (number executed) (number included) (number answered)) }
{
    let mut table = [NO_MARK; MAX_MARKS];
    let a = number_marks(&mut table, 0, n, wide::all_below(n), 0);
    let b = number_marks(&mut table, n, n, executed, a);
    let c = number_marks(&mut table, 2 * n, n, included, b);
    let d = number_marks(&mut table, 3 * n, n, answered, c);
    Numbered { table, marks: d }
}
