// Steps of a flat chart: the open rule, the open test, executing, counting what is open, the finished test.
ghost use Rattle.std.specs.Prelude.{◌≡◌, true, ◌<◌, ◌≤◌};
ghost use Rattle.paper.specs.Limits.{max_events};
ghost use Rattle.wide.specs.Number.{number};
ghost use Rattle.flat_chart.specs.Numbers.{flat_of, lent_of, row_numbers};
ghost use Rattle.graph.specs.Fitness.{fit};
ghost use Rattle.graph.specs.Numbers.{marks_of, blocking_numbers, test_of, step_of};
ghost use Rattle.graph.specs.Steps.{unmet_of, awaited_of, blocking_of, shut, blocked, testing, opening};
ghost use Rattle.graph.specs.Steps.{free_with, after_with, refusing, handed_on, stepping_by, open_set, executing, counting, finishing};

use crate::Marking;
use flat_chart::{FlatChart, LentChart, Row, permits};
use paper::{Answer, MAX_EVENTS};
use wide::Set;

// What holds an event back: its included conditions that are not executed, and its included milestones that are pending.
#[derive(Clone, Copy)]
struct Blocking {
    conditions: Set,
    milestones: Set,
}

// What the open test gives: with 12 and 13 all that holds the event back, with every other code two empty sets.
#[repr(C)]
#[derive(Clone, Copy)]
pub struct OpenTest {
    pub answer: Answer,
    pub conditions: Set,
    pub milestones: Set,
}

// What executing an event gives: the next marking, or the old one beside the refusal; and the sets of its open test.
#[repr(C)]
#[derive(Clone, Copy)]
pub struct Step {
    pub answer: Answer,
    pub marking: Marking,
    pub conditions: Set,
    pub milestones: Set,
}

// How many events are open and the lowest of them, MAX_EVENTS where there is none.
#[repr(C)]
#[derive(Clone, Copy)]
pub struct OpenCount {
    pub answer: Answer,
    pub count: u32,
    pub lowest: u32,
}

// Whether a marking is finished, or why that is not told.
#[repr(C)]
#[derive(Clone, Copy)]
pub struct Finished {
    pub answer: Answer,
    pub yes: bool,
}

fn shut(code: u32) -> OpenTest
    ensures { test_of result ≡ shut code }
{
    OpenTest {
        answer: paper::refused(code, 0, 0),
        conditions: wide::empty(),
        milestones: wide::empty(),
    }
}

fn blocked(code: u32, place: u32, by: Blocking) -> OpenTest
    ensures { test_of result ≡ blocked code place (blocking_numbers by) }
{
    OpenTest {
        answer: paper::refused(code, place, 0),
        conditions: by.conditions,
        milestones: by.milestones,
    }
}

// A step with what the open test gave.
fn handed_on(test: OpenTest, marking: Marking) -> Step
    ensures { step_of result ≡ handed_on (test_of test) (marks_of marking) }
{
    Step {
        answer: test.answer,
        marking,
        conditions: test.conditions,
        milestones: test.milestones,
    }
}

impl Marking {
    // Which of an event's conditions are included and not executed.
    #[tactic(auto, unfolding(crate::specs::Steps::unmet_of))]
    fn unmet(self, conditions: Set) -> Set
        ensures { number result ≡ unmet_of (marks_of self) (number conditions) }
    {
        wide::less(wide::meet(self.included, conditions), self.executed)
    }

    // Which of an event's milestones are included and pending.
    #[tactic(auto, unfolding(crate::specs::Steps::awaited_of))]
    fn awaited(self, milestones: Set) -> Set
        ensures { number result ≡ awaited_of (marks_of self) (number milestones) }
    {
        wide::meet(wide::meet(self.included, milestones), self.pending)
    }

    // All that holds an event back.
    fn blocking(self, conditions: Set, milestones: Set) -> Blocking
        ensures { blocking_numbers result ≡ blocking_of (marks_of self) (number conditions) (number milestones) }
    {
        Blocking {
            conditions: self.unmet(conditions),
            milestones: self.awaited(milestones),
        }
    }

    // Whether nothing holds an event back: it is open if it is included too.
    #[tactic(auto, unfolding(crate::specs::Steps::free_with))]
    pub fn is_free(self, conditions: Set, milestones: Set) -> bool
        ensures { result ≡ free_with (marks_of self) (number conditions) (number milestones) }
    {
        let by = self.blocking(conditions, milestones);
        wide::is_empty(by.conditions) & wide::is_empty(by.milestones)
    }

    // The marking after e, which excludes before it includes.
    #[tactic(auto, unfolding(crate::specs::Steps::after_with))]
    pub fn after(self, e: usize, responses: Set, includes: Set, excludes: Set) -> Marking
        requires { e < max_events }
        ensures { marks_of result ≡ after_with (marks_of self) e (number responses) (number includes) (number excludes) }
    {
        let own = wide::one(e);
        Marking {
            executed: wide::join(self.executed, own),
            pending: wide::join(wide::less(self.pending, own), responses),
            included: wide::join(wide::less(self.included, excludes), includes),
        }
    }

    fn refused(self, code: u32) -> Step
        ensures { step_of result ≡ refusing code 0 (marks_of self) }
    {
        Step {
            answer: paper::refused(code, 0, 0),
            marking: self,
            conditions: wide::empty(),
            milestones: wide::empty(),
        }
    }

    // The open test of event e, of a chart and a marking that are known to be fit: 11, 12, 13, or open.
    #[tactic(auto, unfolding(crate::specs::Steps::testing))]
    pub fn test(self, e: usize, row: Row) -> OpenTest
        requires { e < max_events }
        ensures { test_of result ≡ testing (marks_of self) e (row_numbers row) }
    {
        if !wide::member(self.included, e) {
            return shut(paper::NOT_INCLUDED);
        }
        let by = self.blocking(row.conditions, row.milestones);
        if !wide::is_empty(by.conditions) {
            return blocked(paper::CONDITION_WANTING, wide::least(by.conditions), by);
        }
        if !wide::is_empty(by.milestones) {
            return blocked(paper::MILESTONE_WANTING, wide::least(by.milestones), by);
        }
        OpenTest {
            answer: paper::granted(),
            conditions: wide::empty(),
            milestones: wide::empty(),
        }
    }

    // The open test over a lent chart: what `open_test` does, with no copy of it.
    #[tactic(auto, using(crate::specs::Steps::fit_few), unfolding(crate::specs::Steps::opening))]
    pub fn open_test_in(self, chart: LentChart<'_>, event: u32) -> OpenTest
        ensures { test_of result ≡ opening (lent_of chart.entry) (marks_of self) event }
    {
        if !self.fits(chart) {
            return shut(paper::UNFIT);
        }
        if chart.count <= event {
            return shut(paper::NO_SUCH_EVENT);
        }
        let e = event as usize;
        self.test(e, chart.row(e))
    }

    // Whether an event is open, and if not, all that holds it back.
    pub fn open_test(self, chart: FlatChart, event: u32) -> OpenTest
        ensures { test_of result ≡ opening (flat_of chart) (marks_of self) event }
    {
        self.open_test_in(chart.lend(), event)
    }

    // A step of event e by a role, of a chart and a marking that are known to be fit: 32, 11, 12, 13, or the next marking.
    #[tactic(auto, unfolding(crate::specs::Steps::stepping_by, crate::specs::Steps::stepping))]
    pub fn step(self, e: usize, row: Row, role: u32) -> Step
        requires { e < max_events }
        ensures { step_of result ≡ stepping_by (marks_of self) e (row_numbers row) role }
    {
        if !permits(row.roles, role) {
            return self.refused(paper::NOT_PERMITTED);
        }
        let test = self.test(e, row);
        if test.answer.code != 0 {
            return handed_on(test, self);
        }
        handed_on(
            test,
            self.after(e, row.responses, row.includes, row.excludes),
        )
    }

    // A step of a chart and a marking that are known to be fit: 10 too, and else what `step` gives.
    #[tactic(auto, using(crate::specs::Steps::fit_few), unfolding(crate::specs::Steps::executing))]
    pub fn step_in(self, chart: LentChart<'_>, event: u32, role: u32) -> Step
        requires { fit (lent_of chart) (marks_of self) ≡ true }
        ensures { step_of result ≡ executing (lent_of chart.entry) (marks_of self) event role }
    {
        if chart.count <= event {
            return self.refused(paper::NO_SUCH_EVENT);
        }
        let e = event as usize;
        self.step(e, chart.row(e), role)
    }

    // Executing over a lent chart: what `execute` does, with no copy of it.
    #[tactic(auto, unfolding(crate::specs::Steps::executing))]
    pub fn execute_in(self, chart: LentChart<'_>, event: u32, role: u32) -> Step
        ensures { step_of result ≡ executing (lent_of chart.entry) (marks_of self) event role }
    {
        if !self.fits(chart) {
            return self.refused(paper::UNFIT);
        }
        self.step_in(chart, event, role)
    }

    // Executes an event by a role: the next marking, or the old one beside the refusal and all that holds the event back.
    pub fn execute(self, chart: FlatChart, event: u32, role: u32) -> Step
        ensures { step_of result ≡ executing (flat_of chart) (marks_of self) event role }
    {
        self.execute_in(chart.lend(), event, role)
    }

    // The open events of a chart whose count is in range.
    #[tactic(auto, using(crate::specs::Steps::free_none, crate::specs::Steps::free_more))]
    pub fn open_among(self, chart: LentChart<'_>) -> Set
        requires { chart.count ≤ max_events }
        ensures { number result ≡ open_set (lent_of chart.entry) (marks_of self) }
    {
        let mut all = wide::empty();
        for e in 0..chart.count as usize {
            let free = self.is_free(
                wide::row(chart.conditions, e),
                wide::row(chart.milestones, e),
            );
            all = wide::put_if(all, e, free);
        }
        wide::meet(all, self.included)
    }

    // Counting over a lent chart: what `count_open` does, with no copy of it.
    #[tactic(auto, using(crate::specs::Steps::fit_few), unfolding(crate::specs::Steps::counting))]
    pub fn count_in(self, chart: LentChart<'_>) -> OpenCount
        ensures { result ≡ counting (lent_of chart.entry) (marks_of self) }
    {
        if !self.fits(chart) {
            return OpenCount {
                answer: paper::refused(paper::UNFIT, 0, 0),
                count: 0,
                lowest: MAX_EVENTS as u32,
            };
        }
        let open = self.open_among(chart);
        OpenCount {
            answer: paper::granted(),
            count: wide::count(open),
            lowest: wide::least(open),
        }
    }

    // How many events are open, and the lowest of them.
    pub fn count_open(self, chart: FlatChart) -> OpenCount
        ensures { result ≡ counting (flat_of chart) (marks_of self) }
    {
        self.count_in(chart.lend())
    }

    // The finished test over a lent chart: what `finished` does, with no copy of it.
    #[tactic(auto, unfolding(crate::specs::Steps::finishing))]
    pub fn finished_in(self, chart: LentChart<'_>) -> Finished
        ensures { result ≡ finishing (lent_of chart.entry) (marks_of self) }
    {
        if !self.fits(chart) {
            return Finished {
                answer: paper::refused(paper::UNFIT, 0, 0),
                yes: false,
            };
        }
        Finished {
            answer: paper::granted(),
            yes: self.is_finished(),
        }
    }

    // Whether no event is both included and pending.
    pub fn finished(self, chart: FlatChart) -> Finished
        ensures { result ≡ finishing (flat_of chart) (marks_of self) }
    {
        self.finished_in(chart.lend())
    }
}
