// The marking of a flat chart, and the test that both are fit. What a marking does is in steps.rt.
#![tactic(auto)]

pub mod steps;

ghost use Rattle.std.specs.Prelude.{◌≡◌, eqb};
ghost use Rattle.sets.specs.Set.{inter};
ghost use Rattle.flat_chart.specs.Numbers.{lent_of};
ghost use Rattle.graph.specs.Numbers.{marks_of};
ghost use Rattle.graph.specs.Fitness.{empty_marking, fit_marking, fit};

use flat_chart::LentChart;
use wide::Set;

// Ex, Re and In.
#[repr(C)]
#[derive(Clone, Copy)]
pub struct Marking {
    pub executed: Set,
    pub pending: Set,
    pub included: Set,
}

impl Marking {
    // No event in any set: what a refused reading gives.
    pub fn empty() -> Marking
        ensures { marks_of result ≡ empty_marking }
    {
        Marking {
            executed: wide::empty(),
            pending: wide::empty(),
            included: wide::empty(),
        }
    }

    // Whether no bit stands outside a count of events.
    #[tactic(auto, unfolding(crate::specs::Fitness::fit_marking))]
    pub fn is_fit(self, count: u32) -> bool
        ensures { result ≡ fit_marking count (marks_of self) }
    {
        wide::inside(
            wide::join(wide::join(self.executed, self.pending), self.included),
            count as usize,
        )
    }

    // Whether the chart is fit, and the marking for it.
    #[tactic(auto, unfolding(crate::specs::Fitness::fit))]
    pub fn fits(self, chart: LentChart<'_>) -> bool
        ensures { result ≡ fit (lent_of chart.entry) (marks_of self) }
    {
        self.is_fit(chart.count) && chart.is_fit()
    }

    // "A marking is finished if no event is both in In and in Re."
    pub fn is_finished(self) -> bool
        ensures { result ≡ eqb (inter (marks_of self).included (marks_of self).pending) 0 }
    {
        wide::is_empty(wide::meet(self.included, self.pending))
    }
}
