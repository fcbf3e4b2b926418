// Flattening, one kind at a time: the events at or below each node, what the relations of a kind gather at each node, and the set that each event takes from its node
// and the groups above it; and the roles that it takes from them.
#![tactic(auto)]

ghost use Rattle.std.specs.Prelude.{◌≡◌, ℕ, ◌+◌, ◌≤◌, ◌<◌, length, get_or};
ghost use Rattle.paper.specs.Limits.{max_nodes, max_events, node_size};
ghost use Rattle.sets.specs.Set.{union};
ghost use Rattle.wide.specs.Number.{number};
ghost use Rattle.records.specs.Image.{node_at};
ghost use Rattle.flattening.specs.Rows.{node_rows, Empty, take_in, flagged_by};
ghost use Rattle.flattening.specs.Order.{Ordered};
ghost use Rattle.flattening.specs.Meaning.{Ground};

mod kind;
pub mod order;

pub use kind::Kind;
use paper::{MAX_EVENTS, MAX_NODES};
use records::ChartImage;
use wide::{SET_WORDS, Set, TABLE};

// Words of a table with a set for each node: row i stands at 4i.
pub const NODE_TABLE: usize = MAX_NODES * SET_WORDS;

// What flattening has at hand of an image: the node of each event, and the groups, each behind its parent.
#[derive(Clone, Copy)]
pub struct Layout<'a> {
    pub image: ChartImage<'a>,
    pub nodes: &'a [usize; MAX_EVENTS],
    pub events: usize,
    pub order: &'a [u16; MAX_NODES],
    pub groups: usize,
    pub ghost known: { Ground image.bytes.now image.nodes image.relations nodes.now events },
    pub ghost ordered: { Ordered image.bytes.now order.now groups },
}

// Empties the rows of n nodes.
fn clear(table: &mut [u64; NODE_TABLE], n: usize)
    requires { n ≤ max_nodes }
    ensures { Empty (node_rows n table.new) }
{
    let none = wide::empty();
    for i in 0..n {
        wide::put_row(table, i, none);
    }
}

// Node i's row takes in s.
fn take_in(table: &mut [u64; NODE_TABLE], n: usize, i: usize, s: Set)
    requires { (i < n) × (n ≤ max_nodes) }
    ensures { node_rows n table.new ≡ take_in (node_rows n table.old) i (number s) }
{
    let all = wide::join(wide::row_in(table, i), s);
    wide::put_row(table, i, all);
}

// Node p's row takes in s, where there is such a node.
fn hand(table: &mut [u64; NODE_TABLE], n: usize, p: usize, s: Set)
    requires { n ≤ max_nodes }
    ensures { node_rows n table.new ≡ take_in (node_rows n table.old) p (number s) }
{
    if p < n {
        take_in(table, n, p, s);
    }
}

fn add_roles(roles: u8, own: u8) -> u8
    ensures { result ≡ union roles own }
{
    roles | own
}

// The events whose flags have a digit, of nodes that lie within the bytes, whatever the header says.
pub fn flagged(image: &[u8], nodes: &[usize; MAX_EVENTS], events: usize, digit: usize) -> Set
    requires { (events ≤ max_events) × ((e : ℕ) → e < events → node_at (get_or nodes.now e 0) + node_size ≤ length image.now) }
    ensures { number result ≡ flagged_by image.now nodes.now digit events }
{
    let mut set = wide::empty();
    for e in 0..events {
        let flags = records::flags_of(image, nodes[e]) as u64;
        set = wide::put_if(set, e, sets::member(flags, digit));
    }
    set
}

impl<'a> Layout<'a> {
    ghost use Rattle.std.specs.Prelude.{replicate};
    ghost use Rattle.sets.specs.Set.{only};
    ghost use Rattle.wide.specs.Number.{rows_of};
    ghost use Rattle.records.specs.Image.{parent_of};
    ghost use Rattle.flattening.specs.Flattening.{kind_number, flat_table, role_table};
    ghost use Rattle.flattening.specs.Rows.{Entered, Members, add_to, Gathered, in_row, with_parent, Has, Handed, Between, names_role, Flat};
    ghost use Rattle.flattening.specs.Kinds.{kind_of_code};

    // ---- the events at or below each node

    // Event e enters its node, and that node's parent.
    fn enter(self, all: &mut [u64; NODE_TABLE], e: usize)
        requires { e < self.events }
        ensures { node_rows self.entry.image.nodes all.new ≡ take_in (take_in (node_rows self.entry.image.nodes all.old) (get_or self.entry.nodes.now e 0) (only e)) (parent_of self.entry.image.bytes.now (get_or self.entry.nodes.now e 0)) (only e) }
    {
        let i = self.nodes[e];
        let one = wide::one(e);
        take_in(all, self.image.nodes, i, one);
        let parent = self.image.parent_of(i) as usize;
        hand(all, self.image.nodes, parent, one);
    }

    // Each event at its node and at that node's parent, into empty rows.
    fn enter_all(self, all: &mut [u64; NODE_TABLE])
        requires { Empty (node_rows self.image.nodes all.old) }
        ensures { Entered self.entry.image.bytes.now self.entry.nodes.now self.entry.image.nodes self.entry.events (node_rows self.entry.image.nodes all.new) }
    {
        for e in 0..self.events {
            self.enter(all, e);
        }
    }

    // Each group hands its events to its parent, the last of the order first.
    fn rise(self, all: &mut [u64; NODE_TABLE])
        requires { Entered self.image.bytes.now self.nodes.now self.image.nodes self.events (node_rows self.image.nodes all.old) }
        ensures { Members self.entry.image.bytes.now self.entry.nodes.now self.entry.events (node_rows self.entry.image.nodes all.new) }
    {
        for j in (0..self.groups).rev() {
            let c = self.order[j] as usize;
            let own = wide::row_in(all, c);
            let parent = self.image.parent_of(c) as usize;
            hand(all, self.image.nodes, parent, own);
        }
    }

    // The events at or below each node.
    pub fn put_members(self, all: &mut [u64; NODE_TABLE])
        ensures { Members self.entry.image.bytes.now self.entry.nodes.now self.entry.events (node_rows self.entry.image.nodes all.new) }
    {
        clear(all, self.image.nodes);
        self.enter_all(all);
        self.rise(all);
    }

    // ---- what the relations of a kind gather

    // Relation r, where it is of the kind. A condition or a milestone is gathered at the node that it holds back, another at the node that reaches.
    fn add(
        self,
        members: &[u64; NODE_TABLE],
        kind: Kind,
        gathered: &mut [u64; NODE_TABLE],
        r: usize,
    )
        requires { r < self.image.relations }
        ensures { node_rows self.entry.image.nodes gathered.new ≡ add_to self.entry.image.bytes.now (node_rows self.entry.image.nodes members.now) (kind_number (kind_of_code kind)) (node_rows self.entry.image.nodes gathered.old) r }
    {
        if self.image.kind_of(r) != kind.number() {
            return;
        }
        let from = self.image.from_of(r) as usize;
        let to = self.image.to_of(r) as usize;
        if kind.holds_back() {
            take_in(gathered, self.image.nodes, to, wide::row_in(members, from));
        } else {
            take_in(gathered, self.image.nodes, from, wide::row_in(members, to));
        }
    }

    // What the relations of one kind gather at each node: one pass over the relations.
    fn gather(self, members: &[u64; NODE_TABLE], kind: Kind, gathered: &mut [u64; NODE_TABLE])
        ensures { Gathered self.entry.image.bytes.now (node_rows self.entry.image.nodes members.now) self.entry.image.nodes (kind_number (kind_of_code kind)) self.entry.image.relations (node_rows self.entry.image.nodes gathered.new) }
    {
        clear(gathered, self.image.nodes);
        for r in 0..self.image.relations {
            self.add(members, kind, gathered, r);
        }
    }

    // ---- what an event takes

    // What stands at node i and at its parent.
    fn with_parent(self, table: &[u64; NODE_TABLE], i: usize) -> Set
        requires { i < self.image.nodes }
        ensures { Has (number result) (λ f. with_parent self.entry.image.bytes.now self.entry.image.nodes (in_row (node_rows self.entry.image.nodes table.now) f i) (node_rows self.entry.image.nodes table.now) (parent_of self.entry.image.bytes.now i) f) }
    {
        let own = wide::row_in(table, i);
        let p = self.image.parent_of(i) as usize;
        if p < self.image.nodes {
            return wide::join(own, wide::row_in(table, p));
        }
        own
    }

    // Each group takes in what its parent has, the first of the order first: then it has what is gathered there and at each group above it.
    fn hand_down(self, gathered: &mut [u64; NODE_TABLE])
        ensures { (Handed self.entry.image.bytes.now self.entry.order.now (in_row (node_rows self.entry.image.nodes gathered.old)) self.entry.groups (node_rows self.entry.image.nodes gathered.new)) × (Between self.entry.image.bytes.now (in_row (node_rows self.entry.image.nodes gathered.old)) (node_rows self.entry.image.nodes gathered.new)) }
    {
        for j in 0..self.groups {
            let c = self.order[j] as usize;
            let all = self.with_parent(gathered, c);
            wide::put_row(gathered, c, all);
        }
    }

    // The set of each event, which its node has and that node's parent, into a table of empty rows.
    fn flatten(self, gathered: &[u64; NODE_TABLE], table: &mut [u64; TABLE])
        requires { rows_of table.old ≡ replicate max_events 0 }
        ensures { Flat (λ e f. with_parent self.entry.image.bytes.now self.entry.image.nodes (in_row (node_rows self.entry.image.nodes gathered.now) f (get_or self.entry.nodes.now e 0)) (node_rows self.entry.image.nodes gathered.now) (parent_of self.entry.image.bytes.now (get_or self.entry.nodes.now e 0)) f) self.entry.events (rows_of table.new) }
    {
        for e in 0..self.events {
            wide::put_row(table, e, self.with_parent(gathered, self.nodes[e]));
        }
    }

    // One kind's table, into a table of empty rows; `gathered` is room for what its relations gather.
    pub fn put_table(
        self,
        members: &[u64; NODE_TABLE],
        gathered: &mut [u64; NODE_TABLE],
        kind: Kind,
        table: &mut [u64; TABLE],
    )
        requires { (Members self.image.bytes.now self.nodes.now self.events (node_rows self.image.nodes members.now)) × (rows_of table.old ≡ replicate max_events 0) }
        ensures { rows_of table.new ≡ flat_table self.entry.image.bytes.now (kind_of_code kind) }
    {
        self.gather(members, kind, gathered);
        self.hand_down(gathered);
        self.flatten(gathered, table);
    }

    // ---- roles

    // The roles that node i names, and those that its parent has.
    fn roles_with(self, all: &[u8; MAX_NODES], i: usize) -> u8
        requires { i < self.image.nodes }
        ensures { Has result (λ f. with_parent self.entry.image.bytes.now self.entry.image.nodes (names_role self.entry.image.bytes.now f i) all.now (parent_of self.entry.image.bytes.now i) f) }
    {
        let own = self.image.roles_of(i);
        let p = self.image.parent_of(i) as usize;
        if p < self.image.nodes {
            return add_roles(own, all[p]);
        }
        own
    }

    // The roles that each group and the groups above it name, the first of the order first.
    fn put_group_roles(self, all: &mut [u8; MAX_NODES])
        ensures { Handed self.entry.image.bytes.now self.entry.order.now (names_role self.entry.image.bytes.now) self.entry.groups all.new }
    {
        for j in 0..self.groups {
            let c = self.order[j] as usize;
            let roles = self.roles_with(all, c);
            all[c] = roles;
        }
    }

    // The role byte of each event, into bytes of 0.
    pub fn put_roles(self, roles: &mut [u8; MAX_EVENTS])
        requires { roles.old ≡ replicate max_events 0 }
        ensures { roles.new ≡ role_table self.entry.image.bytes.now }
    {
        let mut all = [0u8; MAX_NODES];
        self.put_group_roles(&mut all);
        for e in 0..self.events {
            roles[e] = self.roles_with(&all, self.nodes[e]);
        }
    }

    // The events whose flags have a digit.
    pub fn flagged(self, digit: usize) -> Set
        ensures { number result ≡ flagged_by self.entry.image.bytes.now self.entry.nodes.now digit self.entry.events }
    {
        flagged(self.image.bytes, self.nodes, self.events, digit)
    }
}
