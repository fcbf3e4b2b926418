// Parents, groups and events: who lies above whom, which nodes are events, and what numbers they get.
#![tactic(auto)]

ghost use Rattle.std.specs.Prelude.{◌≡◌, true, not, cond, ◌≤◌, ◌<◌, set};
ghost use Rattle.paper.specs.Limits.{max_nodes, max_events};
ghost use Rattle.general.specs.Below.{some, first, found, tally};
ghost use Rattle.nesting.specs.Nesting.{on_loop_at};
ghost use Rattle.nesting.specs.Climbing.{Climbed, Stamps};
ghost use Rattle.nesting.specs.Tables.{mark_at, Groups, EventNodes, is_event_in, flagged_in};

use paper::{MAX_EVENTS, MAX_NODES};
use records::ChartImage;

// Node p is marked as a group, where there is such a node.
#[tactic(auto, unfolding(crate::specs::Tables::mark_at))]
fn mark(groups: &mut [bool; MAX_NODES], n: usize, p: usize)
    requires { n ≤ max_nodes }
    ensures { groups.new ≡ mark_at groups.old n p }
{
    if p < n {
        groups[p] = true;
    }
}

// Which nodes are groups.
pub fn groups_of(image: ChartImage<'_>) -> [bool; MAX_NODES]
    ensures { Groups image.entry.bytes.now image.entry.nodes result }
{
    let mut groups = [false; MAX_NODES];
    for a in 0..image.nodes {
        mark(&mut groups, image.nodes, image.parent_of(a) as usize);
    }
    groups
}

// How many of the first n nodes are events.
pub fn count_events(groups: &[bool; MAX_NODES], n: usize) -> usize
    requires { n ≤ max_nodes }
    ensures { result ≡ tally n (is_event_in groups.now) }
{
    let mut count: usize = 0;
    for i in 0..n {
        count += !groups[i] as usize;
    }
    count
}

fn flagged_group_at(image: ChartImage<'_>, groups: &[bool; MAX_NODES], i: usize) -> bool
    requires { i < image.nodes }
    ensures { result ≡ flagged_in image.entry.bytes.now groups.now i }
{
    groups[i] & (image.state_of(i) != 0)
}

// The lowest group whose state is not 0.
pub fn first_flagged_group(image: ChartImage<'_>, groups: &[bool; MAX_NODES]) -> Option<usize>
    ensures { result ≡ found image.entry.nodes (first image.entry.nodes (flagged_in image.entry.bytes.now groups.now)) }
{
    (0..image.nodes).find(|&i| flagged_group_at(image, groups, i))
}

// Node i gets the number e, unless it is a group.
fn put_node(nodes: &mut [usize; MAX_EVENTS], e: usize, i: usize, group: bool)
    requires { not group ≡ true → e < max_events }
    ensures { nodes.new ≡ cond group nodes.old (set nodes.old e i) }
{
    if !group {
        nodes[e] = i;
    }
}

// The node of each event.
pub fn event_nodes(groups: &[bool; MAX_NODES], n: usize) -> [usize; MAX_EVENTS]
    requires { (n ≤ max_nodes) × (tally n (is_event_in groups.now) ≤ max_events) }
    ensures { EventNodes groups.now n result }
{
    let mut nodes = [0usize; MAX_EVENTS];
    let mut e: usize = 0;
    for i in 0..n {
        put_node(&mut nodes, e, i, groups[i]);
        e += !groups[i] as usize;
    }
    nodes
}

// Stamps the nodes from a upwards that have no stamp yet; whether that ends above a root or at an older stamp, and not at its own.
fn climb(image: ChartImage<'_>, stamps: &mut [u16; MAX_NODES], a: usize) -> bool
    requires { (a < image.nodes) × Stamps image.bytes.now image.nodes a stamps.old }
    ensures { Climbed image.entry.bytes.now image.entry.nodes a stamps.new result }
{
    let stamp = a as u16 + 1;
    let mut c = a;
    while c < image.nodes {
        if stamps[c] != 0 {
            return stamps[c] != stamp;
        }
        stamps[c] = stamp;
        c = image.parent_of(c) as usize;
    }
    true
}

// Whether no parents loop, by one walk over the nodes: each is stamped once.
fn all_free(image: ChartImage<'_>) -> bool
    ensures { result ≡ not (some image.entry.nodes (on_loop_at image.entry.bytes.now)) }
{
    let mut stamps = [0u16; MAX_NODES];
    for start in 0..image.nodes {
        if !climb(image, &mut stamps, start) {
            return false;
        }
    }
    true
}

// Whether climbing from a comes back to a: what is not back after so many nodes as there are never is.
fn returns(image: ChartImage<'_>, a: usize) -> bool
    requires { a < image.nodes }
    ensures { result ≡ on_loop_at image.entry.bytes.now a }
{
    let mut c = image.parent_of(a) as usize;
    for passed in 0..image.nodes {
        if c == a {
            return true;
        }
        if image.nodes <= c {
            return false;
        }
        c = image.parent_of(c) as usize;
    }
    false
}

// The lowest node on a loop of parents. Each node is climbed from by itself only in a chart that is refused.
pub fn lowest_on_loop(image: ChartImage<'_>) -> Option<usize>
    ensures { result ≡ found image.entry.nodes (first image.entry.nodes (on_loop_at image.entry.bytes.now)) }
{
    if all_free(image) {
        return None;
    }
    (0..image.nodes).find(|&node| returns(image, node))
}
