// What mending writes: the groups that are left after the cuts, how many entries the list has, the list, and the chart.
#![tactic(auto)]

ghost use Rattle.std.specs.Prelude.{◌≡◌, ◌+◌, ◌≤◌, ◌<◌, length};
ghost use Rattle.paper.specs.Limits.{max_nodes, max_relations, chart_header, relation_size, change_size};
ghost use Rattle.general.specs.Writing.{Wrote};
ghost use Rattle.loop_cuts.specs.Walking.{LowestCut};
ghost use Rattle.mending.specs.Records.{relation_bytes, header_bytes};
ghost use Rattle.mending.specs.Mending.{known_flags};
ghost use Rattle.mending.specs.OfImage.{relations_left};
ghost use Rattle.mend_writer.specs.Groups.{GroupsLeft, Ready};
ghost use Rattle.mend_writer.specs.Bytes.{relation};

mod step;

use paper::{CHART_HEADER, FLAGS_BYTE, MAX_NODES, NO_PARENT, NODE_SIZE};
use records::ChartImage;
use step::Step;

// The flags 1, 2 and 4 lie below it.
const STATE_FLAGS: u16 = 8;

// A chart that is mended: its image, which nodes are cut from their parents, which are groups after that, and how many relations stay.
#[derive(Clone, Copy)]
pub struct Repair<'a> {
    pub image: ChartImage<'a>,
    pub cut: &'a [bool; MAX_NODES],
    pub groups: &'a [bool; MAX_NODES],
    pub left: usize,
    pub ghost ready: { Ready image.bytes.now image.nodes image.relations cut.now groups.now },
    pub ghost stays: { left ≡ relations_left image.bytes.now },
    pub ghost few: { left ≤ image.relations },
}

// An entry of the list: which step changes which record, and the three numbers of the record before that.
#[derive(Clone, Copy)]
struct Change {
    step: Step,
    number: u16,
    first: u16,
    second: u16,
    third: u16,
}

// Which nodes are groups after the cuts.
pub fn groups_left(image: ChartImage<'_>, cut: &[bool; MAX_NODES]) -> [bool; MAX_NODES]
    requires { LowestCut image.bytes.now image.nodes cut.now }
    ensures { GroupsLeft image.entry.bytes.now image.entry.nodes result }
{
    let mut groups = [false; MAX_NODES];
    for a in 0..image.nodes {
        let p = image.parent_of(a) as usize;
        if p < image.nodes && !cut[a] {
            groups[p] = true;
        }
    }
    groups
}

// How many relations stay.
pub fn relations_left(image: ChartImage<'_>) -> usize
    ensures { (result ≡ relations_left image.entry.bytes.now) × (result ≤ image.entry.relations) }
{
    let mut left: usize = 0;
    for k in 0..image.relations {
        left += !image.bad_relation_at(k) as usize;
    }
    left
}

#[tactic(auto, unfolding(mending::specs::Mending::known_flags))]
fn known_flags(flags: u16) -> u16
    ensures { result ≡ known_flags flags }
{
    flags % STATE_FLAGS + FLAGS_BYTE * (flags / FLAGS_BYTE)
}

// Both counts, and where the parts lie.
fn put_header(chart: &mut [u8], n: usize, left: usize) -> usize
    requires { (n ≤ max_nodes) × (left ≤ max_relations) × (chart_header ≤ length chart.old) }
    ensures { Wrote chart.old 0 (header_bytes n left) result chart.new }
{
    wire::put16(chart, 0, n as u16);
    wire::put16(chart, 2, left as u16);
    wire::put16(chart, 4, CHART_HEADER as u16);
    wire::put16(chart, 6, (CHART_HEADER + NODE_SIZE * n) as u16);
    CHART_HEADER
}

fn put_record(chart: &mut [u8], at: usize, from: u16, to: u16, kind: u16) -> usize
    requires { at + relation_size ≤ length chart.old }
    ensures { Wrote chart.old at (relation_bytes (relation from to kind)) result chart.new }
{
    wire::put16(chart, at, from);
    wire::put16(chart, at + 2, to);
    wire::put16(chart, at + 4, kind);
    at + 6
}

impl Change {
    ghost use Rattle.mending.specs.Mending.{change_bytes};
    ghost use Rattle.mend_writer.specs.Numbers.{change_of};

    fn put(self, list: &mut [u8], at: usize) -> usize
        requires { at + change_size ≤ length list.old }
        ensures { Wrote list.old at (change_bytes (change_of self)) result list.new }
    {
        wire::put16(list, at, self.step.number());
        wire::put16(list, at + 2, self.number);
        wire::put16(list, at + 4, self.first);
        wire::put16(list, at + 6, self.second);
        wire::put16(list, at + 8, self.third);
        at + 10
    }
}

impl<'a> Repair<'a> {
    ghost use Rattle.std.specs.Prelude.{◌*◌};
    ghost use Rattle.paper.specs.Limits.{node_size, mend_group};
    ghost use Rattle.general.specs.Below.{tally};
    ghost use Rattle.general.specs.Lists.{total, flat};
    ghost use Rattle.general.specs.Writing.{Fits};
    ghost use Rattle.mending.specs.OfImage.{missing_at, node_part, relation_part, mended_runs, entries};
    ghost use Rattle.mend_writer.specs.Steps.{parent_before, flags_before, changed_at, entry_part, drop_part, steps_run, list_runs};
    ghost use Rattle.mend_writer.specs.Bytes.{step_count};
    ghost use Rattle.mend_writer.specs.Numbers.{step_number};

    // ---- one node, before a step

    #[tactic(auto, unfolding(mending::specs::OfImage::missing_at))]
    fn missing_at(self, i: usize) -> bool
        requires { i < self.image.nodes }
        ensures { result ≡ missing_at self.entry.image.bytes.now i }
    {
        let parent = self.image.parent_of(i);
        (parent != NO_PARENT) & (self.image.nodes <= parent as usize)
    }

    // Whether the step changes node i.
    fn changed_at(self, step: Step, i: usize) -> bool
        requires { i < self.image.nodes }
        ensures { result ≡ changed_at self.entry.image.bytes.now (step_number step) i }
    {
        let flags = self.image.flags_of(i);
        match step {
            Step::Parent => self.missing_at(i),
            Step::Flags => known_flags(flags) != flags,
            Step::Loop => self.cut[i],
            Step::Group | Step::Relation => self.groups[i] & (flags % STATE_FLAGS != 0),
        }
    }

    fn parent_before(self, step: Step, i: usize) -> u16
        requires { i < self.image.nodes }
        ensures { result ≡ parent_before self.entry.image.bytes.now (step_number step) i }
    {
        let missing = self.missing_at(i);
        if step.is_after(Step::Parent) & missing | step.is_after(Step::Loop) & self.cut[i] {
            return NO_PARENT;
        }
        self.image.parent_of(i)
    }

    fn flags_before(self, step: Step, i: usize) -> u16
        requires { i < self.image.nodes }
        ensures { result ≡ flags_before self.entry.image.bytes.now (step_number step) i }
    {
        let flags = self.image.flags_of(i);
        if !step.is_after(Step::Flags) {
            return flags;
        }
        if step.is_after(Step::Group) & self.groups[i] {
            return FLAGS_BYTE * (flags / FLAGS_BYTE);
        }
        known_flags(flags)
    }

    // ---- how many entries

    // How many nodes the step changes.
    fn count_step(self, step: Step) -> usize
        ensures { (result ≡ tally self.entry.image.nodes (changed_at self.entry.image.bytes.now (step_number step))) × (result ≤ max_nodes) }
    {
        let mut count: usize = 0;
        for i in 0..self.image.nodes {
            count += self.changed_at(step, i) as usize;
        }
        count
    }

    // How many changes the four steps over the nodes make.
    fn count_steps(self) -> usize
        ensures { (result ≡ total mend_group (step_count self.entry.image.bytes.now self.entry.image.nodes)) × (result ≤ mend_group * max_nodes) }
    {
        let parents = self.count_step(Step::Parent);
        let flags = self.count_step(Step::Flags);
        let loops = self.count_step(Step::Loop);
        let groups = self.count_step(Step::Group);
        parents + flags + loops + groups
    }

    // How many entries the list has.
    pub fn count_entries(self) -> usize
        ensures { (result ≡ length (entries self.entry.image.bytes.now)) × (result ≤ mend_group * max_nodes + max_relations) }
    {
        self.count_steps() + (self.image.relations - self.left)
    }

    // ---- the list

    // The entry of node i, if the step changes it: the node as it stood before the step.
    fn put_entry(self, list: &mut [u8], at: usize, step: Step, i: usize) -> usize
        requires { (i < self.image.nodes) × Fits list.old at (entry_part self.image.bytes.now (step_number step) i) }
        ensures { Wrote list.old at (entry_part self.entry.image.bytes.now (step_number step) i) result list.new }
    {
        if !self.changed_at(step, i) {
            return at;
        }
        let change = Change {
            step,
            number: i as u16,
            first: self.parent_before(step, i),
            second: self.flags_before(step, i),
            third: 0,
        };
        change.put(list, at)
    }

    fn put_step(self, list: &mut [u8], at: usize, step: Step) -> usize
        requires { Fits list.old at (flat self.image.nodes (entry_part self.image.bytes.now (step_number step))) }
        ensures { Wrote list.old at (flat self.entry.image.nodes (entry_part self.entry.image.bytes.now (step_number step))) result list.new }
    {
        let mut next = at;
        for i in 0..self.image.nodes {
            next = self.put_entry(list, next, step, i);
        }
        next
    }

    // The entries of the four steps over the nodes.
    fn put_steps(self, list: &mut [u8]) -> usize
        requires { Fits list.old 0 (steps_run self.image.bytes.now self.image.nodes) }
        ensures { Wrote list.old 0 (steps_run self.entry.image.bytes.now self.entry.image.nodes) result list.new }
    {
        let parents = self.put_step(list, 0, Step::Parent);
        let flags = self.put_step(list, parents, Step::Flags);
        let loops = self.put_step(list, flags, Step::Loop);
        self.put_step(list, loops, Step::Group)
    }

    // The entry of relation k, if it is dropped.
    fn put_drop(self, list: &mut [u8], at: usize, k: usize) -> usize
        requires { (k < self.image.relations) × Fits list.old at (drop_part self.image.bytes.now k) }
        ensures { Wrote list.old at (drop_part self.entry.image.bytes.now k) result list.new }
    {
        if !self.image.bad_relation_at(k) {
            return at;
        }
        let change = Change {
            step: Step::Relation,
            number: k as u16,
            first: self.image.from_of(k),
            second: self.image.to_of(k),
            third: self.image.kind_of(k),
        };
        change.put(list, at)
    }

    fn put_drops(self, list: &mut [u8], at: usize) -> usize
        requires { Fits list.old at (flat self.image.relations (drop_part self.image.bytes.now)) }
        ensures { Wrote list.old at (flat self.entry.image.relations (drop_part self.entry.image.bytes.now)) result list.new }
    {
        let mut next = at;
        for k in 0..self.image.relations {
            next = self.put_drop(list, next, k);
        }
        next
    }

    // The whole list, step behind step.
    pub fn put_list(self, list: &mut [u8]) -> usize
        requires { Fits list.old 0 (list_runs self.image.bytes.now self.image.nodes self.image.relations) }
        ensures { Wrote list.old 0 (list_runs self.entry.image.bytes.now self.entry.image.nodes self.entry.image.relations) result list.new }
    {
        let drops = self.put_steps(list);
        self.put_drops(list, drops)
    }

    // ---- the chart

    fn put_node(self, chart: &mut [u8], at: usize, i: usize) -> usize
        requires { (i < self.image.nodes) × (at + node_size ≤ length chart.old) }
        ensures { Wrote chart.old at (node_part self.entry.image.bytes.now i) result chart.new }
    {
        let parent = self.parent_before(Step::Relation, i);
        let flags = self.flags_before(Step::Relation, i);
        wire::put16(chart, at, parent);
        wire::put16(chart, at + 2, flags);
        at + 4
    }

    fn put_nodes(self, chart: &mut [u8], at: usize) -> usize
        requires { Fits chart.old at (flat self.image.nodes (node_part self.image.bytes.now)) }
        ensures { Wrote chart.old at (flat self.entry.image.nodes (node_part self.entry.image.bytes.now)) result chart.new }
    {
        let mut next = at;
        for i in 0..self.image.nodes {
            next = self.put_node(chart, next, i);
        }
        next
    }

    // Relation k, if it stays.
    fn put_relation(self, chart: &mut [u8], at: usize, k: usize) -> usize
        requires { (k < self.image.relations) × Fits chart.old at (relation_part self.image.bytes.now k) }
        ensures { Wrote chart.old at (relation_part self.entry.image.bytes.now k) result chart.new }
    {
        if self.image.bad_relation_at(k) {
            return at;
        }
        let from = self.image.from_of(k);
        let to = self.image.to_of(k);
        let kind = self.image.kind_of(k);
        put_record(chart, at, from, to, kind)
    }

    fn put_relations(self, chart: &mut [u8], at: usize) -> usize
        requires { Fits chart.old at (flat self.image.relations (relation_part self.image.bytes.now)) }
        ensures { Wrote chart.old at (flat self.entry.image.relations (relation_part self.entry.image.bytes.now)) result chart.new }
    {
        let mut next = at;
        for k in 0..self.image.relations {
            next = self.put_relation(chart, next, k);
        }
        next
    }

    // The whole chart.
    pub fn put_chart(self, chart: &mut [u8]) -> usize
        requires { Fits chart.old 0 (mended_runs self.image.bytes.now) }
        ensures { Wrote chart.old 0 (mended_runs self.entry.image.bytes.now) result chart.new }
    {
        let nodes = put_header(chart, self.image.nodes, self.left);
        let relations = self.put_nodes(chart, nodes);
        self.put_relations(chart, relations)
    }
}
