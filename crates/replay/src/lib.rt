// Request (vii): how far a record of steps is allowed, and whether it is allowed without one of them.
#![tactic(auto)]

ghost use Rattle.std.specs.Prelude.{◌≡◌, true, ◌≤◌, ◌<◌, ◌*◌, ◌/◌, length, eqb};
ghost use Rattle.paper.specs.Limits.{max_events};
ghost use Rattle.flat_chart.specs.Numbers.{flat_of, lent_of};
ghost use Rattle.graph.specs.Fitness.{fit};
ghost use Rattle.graph.specs.Numbers.{marks_of, step_of};
ghost use Rattle.graph.specs.Steps.{executing, after};
ghost use Rattle.replay.specs.Numbers.{replayed_of, struck_of, walked_of};
ghost use Rattle.replay.specs.Recorded.{record_of};
ghost use Rattle.replay.specs.Replaying.{walking, walking_without, replaying, not_struck, stopped_by, striking};

use flat_chart::{FlatChart, LentChart, permits};
use graph::Marking;
use graph::steps::Step;
use paper::Answer;
use wide::Set;

// What a replay gives: how many steps of the record are allowed, the code of the next one, 0 where there is none, the marking there, and all that
// blocks that step.
#[repr(C)]
#[derive(Clone, Copy)]
pub struct Replayed {
    pub answer: Answer,
    pub code: u32,
    pub steps: u64,
    pub marking: Marking,
    pub finished: bool,
    pub conditions: Set,
    pub milestones: Set,
}

// What a strike gives: the marking of the record without the step, or the start marking beside the refusal and all that blocks the step that fails.
#[repr(C)]
#[derive(Clone, Copy)]
pub struct Struck {
    pub answer: Answer,
    pub marking: Marking,
    pub conditions: Set,
    pub milestones: Set,
}

// The position at which a walk over the record stopped, and what the step there gave. At the end there is none: code 0 and the marking reached.
#[derive(Clone, Copy)]
struct Walked {
    at: usize,
    stop: Step,
}

// Whether a step is allowed, of a chart and a marking that are known to be fit: what a whole step gives is large, and most steps of a record are allowed.
#[tactic(auto, using(graph::specs::Steps::fit_few), unfolding(graph::specs::Steps::executing, graph::specs::Steps::stepping_by, graph::specs::Steps::stepping, graph::specs::Steps::testing, graph::specs::Steps::free_with))]
fn is_allowed(marking: Marking, chart: LentChart<'_>, event: u32, role: u32) -> bool
    requires { fit (lent_of chart) (marks_of marking) ≡ true }
    ensures { result ≡ eqb (executing (lent_of chart.entry) (marks_of marking) event role).answer.code 0 }
{
    let e = event as usize;
    event < chart.count
        && permits(chart.roles[e], role)
        && wide::member(marking.included, e)
        && marking.is_free(
            wide::row(chart.conditions, e),
            wide::row(chart.milestones, e),
        )
}

// The marking behind an allowed step.
fn moved(marking: Marking, chart: LentChart<'_>, event: u32) -> Marking
    requires { event < max_events }
    ensures { marks_of result ≡ after (lent_of chart.entry) (marks_of marking) event }
{
    let e = event as usize;
    marking.after(
        e,
        wide::row(chart.responses, e),
        wide::row(chart.includes, e),
        wide::row(chart.excludes, e),
    )
}

// The steps from one position to another, each from the marking that the ones before it gave, up to the first that is not allowed.
fn walk(marking: Marking, chart: LentChart<'_>, recorded: &[u32], from: usize, end: usize) -> Walked
    requires { (fit (lent_of chart) (marks_of marking) ≡ true) × (from ≤ end) × (end * 2 ≤ length recorded.now) }
    ensures { walked_of result ≡ walking (lent_of chart.entry) (marks_of marking) (record_of recorded.now) from end }
{
    let mut reached = marking;
    for at in from..end {
        let event = recorded[at * 2];
        let role = recorded[at * 2 + 1];
        if !is_allowed(reached, chart, event, role) {
            return Walked {
                at,
                stop: reached.step_in(chart, event, role),
            };
        }
        reached = moved(reached, chart, event);
    }
    Walked {
        at: end,
        stop: Step {
            answer: paper::granted(),
            marking: reached,
            conditions: wide::empty(),
            milestones: wide::empty(),
        },
    }
}

// Replay over a lent chart: what `replay` does, with no copy of it.
#[tactic(auto, using(crate::proofs::Calls::walk_whole, crate::proofs::Calls::told_finished), unfolding(crate::specs::Replaying::replaying))]
pub fn replay_in(chart: LentChart<'_>, marking: Marking, recorded: &[u32]) -> Replayed
    ensures { replayed_of result ≡ replaying (lent_of chart.entry) (marks_of marking) recorded.now }
{
    if !marking.fits(chart) {
        return Replayed {
            answer: paper::refused(paper::UNFIT, 0, 0),
            code: 0,
            steps: 0,
            marking,
            finished: false,
            conditions: wide::empty(),
            milestones: wide::empty(),
        };
    }
    let walked = walk(marking, chart, recorded, 0, recorded.len() / 2);
    Replayed {
        answer: paper::granted(),
        code: walked.stop.answer.code,
        steps: walked.at as u64,
        marking: walked.stop.marking,
        finished: walked.stop.marking.is_finished(),
        conditions: walked.stop.conditions,
        milestones: walked.stop.milestones,
    }
}

// The walk over the whole record without the step at one position.
#[tactic(auto, using(crate::proofs::Calls::without_stopped, crate::proofs::Calls::without_went))]
fn walk_without(marking: Marking, chart: LentChart<'_>, recorded: &[u32], struck: usize) -> Walked
    requires { (fit (lent_of chart) (marks_of marking) ≡ true) × (struck < length recorded.now / 2) }
    ensures { walked_of result ≡ walking_without (lent_of chart.entry) (marks_of marking) (record_of recorded.now) struck }
{
    let before = walk(marking, chart, recorded, 0, struck);
    if before.stop.answer.code != 0 {
        return before;
    }
    let there = before.stop.marking;
    walk(there, chart, recorded, struck + 1, recorded.len() / 2)
}

// A refusal of the whole call: the start marking comes back, and nothing blocks.
fn not_struck(marking: Marking, code: u32, place: u32) -> Struck
    ensures { struck_of result ≡ not_struck code place (marks_of marking) }
{
    Struck {
        answer: paper::refused(code, place, 0),
        marking,
        conditions: wide::empty(),
        milestones: wide::empty(),
    }
}

// The step that fails, by its code, its place in the old record and all that blocks it.
fn stopped_by(marking: Marking, stop: Step, place: u32) -> Struck
    ensures { struck_of result ≡ stopped_by (step_of stop) place (marks_of marking) }
{
    Struck {
        answer: paper::refused(stop.answer.code, place, 0),
        marking,
        conditions: stop.conditions,
        milestones: stop.milestones,
    }
}

// Strike over a lent chart: what `strike` does, with no copy of it.
#[tactic(auto, using(crate::proofs::Calls::strike_walked))]
pub fn strike_in(chart: LentChart<'_>, marking: Marking, recorded: &[u32], position: u32) -> Struck
    ensures { struck_of result ≡ striking (lent_of chart.entry) (marks_of marking) recorded.now position }
{
    if !marking.fits(chart) {
        return not_struck(marking, paper::UNFIT, 0);
    }
    let left_out = position as usize;
    if recorded.len() / 2 <= left_out {
        return not_struck(marking, paper::NO_SUCH_POSITION, 0);
    }
    let walked = walk_without(marking, chart, recorded, left_out);
    let stop = walked.stop;
    if stop.answer.code != 0 {
        return stopped_by(marking, stop, paper::place_of(walked.at));
    }
    Struck {
        answer: paper::granted(),
        marking: stop.marking,
        conditions: wide::empty(),
        milestones: wide::empty(),
    }
}

// How far a record of steps is allowed, and the marking there.
pub fn replay(chart: FlatChart, marking: Marking, recorded: &[u32]) -> Replayed
    ensures { replayed_of result ≡ replaying (flat_of chart) (marks_of marking) recorded.now }
{
    replay_in(chart.lend(), marking, recorded)
}

// Whether a record of steps is allowed without the one at a position, and then its marking.
pub fn strike(chart: FlatChart, marking: Marking, recorded: &[u32], position: u32) -> Struck
    ensures { struck_of result ≡ striking (flat_of chart) (marks_of marking) recorded.now position }
{
    strike_in(chart.lend(), marking, recorded, position)
}
