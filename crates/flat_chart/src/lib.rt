// The flat chart, the test that it is fit, and one event's own sets and roles.
#![tactic(auto)]

ghost use Rattle.std.specs.Prelude.{◌≡◌, ◌-◌, ◌<◌, ◌≤◌};
ghost use Rattle.paper.specs.Limits.{max_events};
ghost use Rattle.wide.specs.Number.{number};
ghost use Rattle.flat_chart.specs.Numbers.{flat_of, lent_of, row_numbers};
ghost use Rattle.flat_chart.specs.Chart.{row_of, empty_chart};
ghost use Rattle.flat_chart.specs.Roles.{permits};
ghost use Rattle.flat_chart.specs.Tests.{held_at, spilled, spill, roles_from, fit_chart};

use paper::{MAX_EVENTS, MAX_ROLES};
use wide::{Set, TABLE};

// One set for each event and kind, row e of its table. Row e of conditions and milestones is who holds e back; of the others, what e reaches; of roles, who may
// execute e, where none means everyone.
#[repr(C)]
#[derive(Clone, Copy)]
pub struct FlatChart {
    pub count: u32,
    pub conditions: [u64; TABLE],
    pub responses: [u64; TABLE],
    pub milestones: [u64; TABLE],
    pub includes: [u64; TABLE],
    pub excludes: [u64; TABLE],
    pub roles: [u8; MAX_EVENTS],
}

// One event's own sets, and the roles that it names.
#[derive(Clone, Copy)]
pub struct Row {
    pub conditions: Set,
    pub responses: Set,
    pub milestones: Set,
    pub includes: Set,
    pub excludes: Set,
    pub roles: u8,
}

// A flat chart that is lent: its count, and its tables where they stand, so that no call copies them.
#[derive(Clone, Copy)]
pub struct LentChart<'a> {
    pub count: u32,
    pub conditions: &'a [u64; TABLE],
    pub responses: &'a [u64; TABLE],
    pub milestones: &'a [u64; TABLE],
    pub includes: &'a [u64; TABLE],
    pub excludes: &'a [u64; TABLE],
    pub roles: &'a [u8; MAX_EVENTS],
}

// Whether a role may execute an event that names these; an event that names none is open to roles 0 to 7.
pub fn permits(roles: u8, role: u32) -> bool
    ensures { result ≡ permits roles role }
{
    (role < MAX_ROLES) & ((roles == 0) | sets::member(roles as u64, role as usize))
}

impl<'a> LentChart<'a> {
    // What event e's sets hold.
    fn held(self, e: usize) -> Set
        requires { e < max_events }
        ensures { number result ≡ held_at (lent_of self.entry) e }
    {
        let some = wide::join(wide::row(self.conditions, e), wide::row(self.responses, e));
        let more = wide::join(some, wide::row(self.milestones, e));
        wide::join(
            wide::join(more, wide::row(self.includes, e)),
            wide::row(self.excludes, e),
        )
    }

    // What the rows from one to another add to a set, where each may hold what is allowed. The loop has no branch.
    fn spilled(self, start: Set, from: usize, end: usize, allowed: Set) -> Set
        requires { (from ≤ end) × (end ≤ max_events) }
        ensures { number result ≡ spilled (lent_of self.entry) (number allowed) (number start) from (end - from) }
    {
        let mut over = start;
        for e in from..end {
            over = wide::join(over, wide::less(self.held(e), allowed));
        }
        over
    }

    // Every row's spill in one set: an event's sets may hold all events, and past the count nothing.
    fn spill(self, n: usize) -> Set
        requires { n ≤ max_events }
        ensures { number result ≡ spill (lent_of self.entry) n max_events }
    {
        let none = wide::empty();
        let over = self.spilled(none, 0, n, wide::all_below(n));
        self.spilled(over, n, MAX_EVENTS, none)
    }

    // The roles that the events from n on name.
    fn roles_past(self, n: usize) -> u8
        requires { n ≤ max_events }
        ensures { result ≡ roles_from (lent_of self.entry).roles n (max_events - n) }
    {
        let mut all = 0;
        for e in n..MAX_EVENTS {
            all |= self.roles[e];
        }
        all
    }

    pub fn is_fit(self) -> bool
        ensures { result ≡ fit_chart (lent_of self.entry) }
    {
        let n = self.count as usize;
        if n < 1 || MAX_EVENTS < n {
            return false;
        }
        wide::is_empty(self.spill(n)) & (self.roles_past(n) == 0)
    }

    // The sets and the roles of event e.
    pub fn row(self, e: usize) -> Row
        requires { e < max_events }
        ensures { row_numbers result ≡ row_of (lent_of self.entry) e }
    {
        Row {
            conditions: wide::row(self.conditions, e),
            responses: wide::row(self.responses, e),
            milestones: wide::row(self.milestones, e),
            includes: wide::row(self.includes, e),
            excludes: wide::row(self.excludes, e),
            roles: self.roles[e],
        }
    }
}

impl FlatChart {
    pub fn empty() -> FlatChart
        ensures { flat_of result ≡ empty_chart }
    {
        FlatChart {
            count: 0,
            conditions: [0; TABLE],
            responses: [0; TABLE],
            milestones: [0; TABLE],
            includes: [0; TABLE],
            excludes: [0; TABLE],
            roles: [0; MAX_EVENTS],
        }
    }

    pub fn lend(&self) -> LentChart<'_>
        ensures { lent_of result ≡ flat_of self.now }
    {
        LentChart {
            count: self.count,
            conditions: &self.conditions,
            responses: &self.responses,
            milestones: &self.milestones,
            includes: &self.includes,
            excludes: &self.excludes,
            roles: &self.roles,
        }
    }

    pub fn is_fit(self) -> bool
        ensures { result ≡ fit_chart (flat_of self) }
    {
        self.lend().is_fit()
    }
}
