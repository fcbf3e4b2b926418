// The chart image's fields, and the tests of its header and of its records.
#![tactic(auto)]

ghost use Rattle.std.specs.Prelude.{◌≡◌, ◌+◌, ◌≤◌, ◌<◌, length};
ghost use Rattle.paper.specs.Limits.{max_nodes, max_relations, chart_header, node_size, flags_byte, relation_size};
ghost use Rattle.records.specs.Image.{nodes, relations, node_at, parent_of, flags_of, state_of, roles_at, relation_at, from_of, to_of, kind_of, out_of_range, misplaced, Whole};

use paper::{
    CHART_HEADER, FLAGS_BYTE, KINDS, MAX_FLAGS, MAX_NODES, MAX_RELATIONS, NO_PARENT, NODE_SIZE,
    RELATION_SIZE,
};

// ---- the header's fields, at these bytes of the image
const NODE_COUNT_AT: usize = 0;

const RELATION_COUNT_AT: usize = 2;

const NODES_OFFSET_AT: usize = 4;

const RELATIONS_OFFSET_AT: usize = 6;

// ---- the fields of a node, which begins with its parent, and of a relation, which begins with its from, at these bytes of the record
const FLAGS_AT: usize = 2;

const TO_AT: usize = 2;

const KIND_AT: usize = 4;

// A chart image whose header is right: its bytes, and how many nodes and relations they hold.
#[derive(Clone, Copy)]
pub struct ChartImage<'a> {
    pub bytes: &'a [u8],
    pub nodes: usize,
    pub relations: usize,
    pub ghost whole: { Whole bytes.now nodes relations },
}

pub fn node_count(image: &[u8]) -> usize
    requires { chart_header ≤ length image.now }
    ensures { result ≡ nodes image.now }
{
    wire::u16_at(image, NODE_COUNT_AT) as usize
}

pub fn relation_count(image: &[u8]) -> usize
    requires { chart_header ≤ length image.now }
    ensures { result ≡ relations image.now }
{
    wire::u16_at(image, RELATION_COUNT_AT) as usize
}

// ---- a field of a record that lies within the bytes, whatever the header says

pub fn parent_of(image: &[u8], i: usize) -> u16
    requires { node_at i + node_size ≤ length image.now }
    ensures { result ≡ parent_of image.now i }
{
    wire::u16_at(image, CHART_HEADER + NODE_SIZE * i)
}

pub fn flags_of(image: &[u8], i: usize) -> u16
    requires { node_at i + node_size ≤ length image.now }
    ensures { result ≡ flags_of image.now i }
{
    wire::u16_at(image, CHART_HEADER + NODE_SIZE * i + FLAGS_AT)
}

// The lower byte of the flags.
pub fn state_of(image: &[u8], i: usize) -> u16
    requires { node_at i + node_size ≤ length image.now }
    ensures { result ≡ state_of image.now i }
{
    flags_of(image, i) % FLAGS_BYTE
}

// The upper byte of the flags.
pub fn roles_of(image: &[u8], i: usize) -> u8
    requires { node_at i + node_size ≤ length image.now }
    ensures { (result ≡ roles_at image.now i) × (result < flags_byte) }
{
    (flags_of(image, i) / FLAGS_BYTE) as u8
}

// Where relation k stands, behind n nodes.
fn relation_at(n: usize, k: usize) -> usize
    requires { (n ≤ max_nodes) × (k ≤ max_relations) }
    ensures { result ≡ relation_at n k }
{
    CHART_HEADER + NODE_SIZE * n + RELATION_SIZE * k
}

pub fn from_of(image: &[u8], n: usize, k: usize) -> u16
    requires { (n ≡ nodes image.now) × (relation_at n k + relation_size ≤ length image.now) × (n ≤ max_nodes) × (k ≤ max_relations) }
    ensures { result ≡ from_of image.now k }
{
    wire::u16_at(image, relation_at(n, k))
}

pub fn to_of(image: &[u8], n: usize, k: usize) -> u16
    requires { (n ≡ nodes image.now) × (relation_at n k + relation_size ≤ length image.now) × (n ≤ max_nodes) × (k ≤ max_relations) }
    ensures { result ≡ to_of image.now k }
{
    wire::u16_at(image, relation_at(n, k) + TO_AT)
}

pub fn kind_of(image: &[u8], n: usize, k: usize) -> u16
    requires { (n ≡ nodes image.now) × (relation_at n k + relation_size ≤ length image.now) × (n ≤ max_nodes) × (k ≤ max_relations) }
    ensures { result ≡ kind_of image.now k }
{
    wire::u16_at(image, relation_at(n, k) + KIND_AT)
}

// ---- the tests of the header

// Whether a count is out of range.
#[tactic(auto, unfolding(crate::specs::Image::out_of_range))]
pub fn out_of_range(image: &[u8]) -> bool
    requires { chart_header ≤ length image.now }
    ensures { result ≡ out_of_range image.now }
{
    let n = node_count(image);
    n == 0 || MAX_NODES < n || MAX_RELATIONS < relation_count(image)
}

// Whether an offset or the length is wrong, for n nodes and k relations.
#[tactic(auto, unfolding(crate::specs::Image::misplaced))]
pub fn misplaced(image: &[u8], n: usize, k: usize) -> bool
    requires { (chart_header ≤ length image.now) × (n ≡ nodes image.now) × (k ≡ relations image.now) × (n ≤ max_nodes) × (k ≤ max_relations) }
    ensures { result ≡ misplaced image.now }
{
    let nodes_at = wire::u16_at(image, NODES_OFFSET_AT) as usize;
    let relations_at = wire::u16_at(image, RELATIONS_OFFSET_AT) as usize;
    nodes_at != CHART_HEADER
        || relations_at != CHART_HEADER + NODE_SIZE * n
        || image.len() != relation_at(n, k)
}

// ---- the records of an image whose header is right

impl<'a> ChartImage<'a> {
    ghost use Rattle.general.specs.Below.{first, found};
    ghost use Rattle.records.specs.Image.{bad_node_at, bad_relation_at};

    pub fn parent_of(self, i: usize) -> u16
        requires { i < self.nodes }
        ensures { result ≡ parent_of self.entry.bytes.now i }
    {
        parent_of(self.bytes, i)
    }

    pub fn flags_of(self, i: usize) -> u16
        requires { i < self.nodes }
        ensures { result ≡ flags_of self.entry.bytes.now i }
    {
        flags_of(self.bytes, i)
    }

    // The lower byte of the flags.
    pub fn state_of(self, i: usize) -> u16
        requires { i < self.nodes }
        ensures { result ≡ state_of self.entry.bytes.now i }
    {
        state_of(self.bytes, i)
    }

    // The upper byte of the flags.
    pub fn roles_of(self, i: usize) -> u8
        requires { i < self.nodes }
        ensures { (result ≡ roles_at self.entry.bytes.now i) × (result < flags_byte) }
    {
        roles_of(self.bytes, i)
    }

    pub fn from_of(self, k: usize) -> u16
        requires { k < self.relations }
        ensures { result ≡ from_of self.entry.bytes.now k }
    {
        from_of(self.bytes, self.nodes, k)
    }

    pub fn to_of(self, k: usize) -> u16
        requires { k < self.relations }
        ensures { result ≡ to_of self.entry.bytes.now k }
    {
        to_of(self.bytes, self.nodes, k)
    }

    pub fn kind_of(self, k: usize) -> u16
        requires { k < self.relations }
        ensures { result ≡ kind_of self.entry.bytes.now k }
    {
        kind_of(self.bytes, self.nodes, k)
    }

    #[tactic(auto, unfolding(crate::specs::Image::bad_node_at))]
    fn bad_node_at(self, i: usize) -> bool
        requires { i < self.nodes }
        ensures { result ≡ bad_node_at self.entry.bytes.now i }
    {
        let parent = self.parent_of(i);
        (parent != NO_PARENT) & (self.nodes <= parent as usize) | (MAX_FLAGS < self.state_of(i))
    }

    // The lowest node whose record is bad.
    pub fn first_bad_node(self) -> Option<usize>
        ensures { result ≡ found self.entry.nodes (first self.entry.nodes (bad_node_at self.entry.bytes.now)) }
    {
        (0..self.nodes).find(|&i| self.bad_node_at(i))
    }

    #[tactic(auto, unfolding(crate::specs::Image::bad_relation_at))]
    pub fn bad_relation_at(self, k: usize) -> bool
        requires { k < self.relations }
        ensures { result ≡ bad_relation_at self.entry.bytes.now k }
    {
        (self.nodes <= self.from_of(k) as usize)
            | (self.nodes <= self.to_of(k) as usize)
            | (KINDS <= self.kind_of(k))
    }

    // The lowest relation whose record is bad.
    pub fn first_bad_relation(self) -> Option<usize>
        ensures { result ≡ found self.entry.relations (first self.entry.relations (bad_relation_at self.entry.bytes.now)) }
    {
        (0..self.relations).find(|&k| self.bad_relation_at(k))
    }
}
