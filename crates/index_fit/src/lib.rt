// Whether given bytes are the index image, compared run by run while the orders are made, or entry by entry where orders rise: no copy of the image is kept.
#![tactic(auto)]

pub mod rising;

ghost use Rattle.std.specs.Prelude.{◌≡◌, true, ◌++◌, ◌+◌, ◌≤◌, length};
ghost use Rattle.paper.specs.Limits.{index_rule};
ghost use Rattle.general.specs.Comparing.{same_bytes, stands_at};
ghost use Rattle.general.specs.Lists.{flat};
ghost use Rattle.general.specs.Writing.{Fits};
ghost use Rattle.wire.specs.Wire.{bytes32};
ghost use Rattle.order_theory.specs.Order.{counted_rules, NoLoop};
ghost use Rattle.order_theory.specs.Rising.{Rising};
ghost use Rattle.book.specs.Image.{rules_in, book_of};
ghost use Rattle.book.specs.WellFormed.{WellFormed};
ghost use Rattle.rule_order.specs.Nets.{rules_of};
ghost use Rattle.index.specs.Index.{order_bytes, index_image};
ghost use Rattle.index.specs.Sizes.{entry_from, Sized};
ghost use Rattle.index.specs.Ready.{IndexReady};

use crate::rising::entries_rise;
use book::Counts;
use index::rising::ascends;
use index::sizes::Sizes;
use ordering::scan::{Ranges, Scan, next_rule};
use paper::{INDEX_HEADER, INDEX_RULE, INDEX_STAGE};
use unwritten::Scratch;
use unwritten::waiting::{Span, count_targets};

// Two numbers of 32 bits.
fn pair_same(index: &[u8], at: usize, first: u32, second: u32) -> bool
    requires { at + 8 ≤ length index.now }
    ensures { result ≡ stands_at index.now at (bytes32 first ++ bytes32 second) }
{
    (wire::u32_at(index, at) == first) & (wire::u32_at(index, at + 4) == second)
}

// For each stage where its order begins and how many rules it has.
fn entries_same(sizes: &Sizes, stages: usize, index: &[u8], at: usize) -> bool
    requires { Sized stages sizes.now.stages sizes.now.common × Fits index.now at (flat stages (entry_from stages sizes.now.stages sizes.now.common)) }
    ensures { result ≡ stands_at index.now at (flat stages (entry_from stages sizes.now.stages sizes.now.common)) }
{
    let mut next = at;
    let mut offset = INDEX_HEADER + INDEX_STAGE * stages;
    for stage in 0..stages {
        let size = sizes.order_size(stage);
        if !pair_same(index, next, offset as u32, size as u32) {
            return false;
        }
        next += INDEX_STAGE;
        offset += INDEX_RULE * size;
    }
    true
}

// A rule of an order.
fn rule_same(index: &[u8], at: usize, rule: u32) -> bool
    requires { at + index_rule ≤ length index.now }
    ensures { result ≡ stands_at index.now at (bytes32 rule) }
{
    wire::u32_at(index, at) == rule
}

// The order of a stage, rule by rule, to the first that differs, made in lent scratch. One pass over the rules, and the scan.
pub fn order_same(
    image: &[u8],
    rules: usize,
    stage: u32,
    scratch: &mut Scratch,
    index: &[u8],
    at: usize,
) -> bool
    requires { (WellFormed image.now) × (rules ≡ rules_in image.now) × (NoLoop (rules_of image.now stage))
        × Fits index.now at (order_bytes (book_of image.now) stage) }
    ensures { result ≡ stands_at index.now at (order_bytes (book_of image.now) stage) }
{
    let counted = count_targets(image, rules, Span::all(rules), stage, scratch);
    let mut next = at;
    let mut ranges = Ranges::empty();
    let mut scan = Scan::start();
    for j in 0..counted {
        let Some(turned) = next_rule(image, rules, scan, scratch, &mut ranges) else {
            unreachable!()
        };
        scan = turned;
        if !rule_same(index, next, scan.rule as u32) {
            return false;
        }
        next += INDEX_RULE;
    }
    true
}

// The order of a stage for which so many rules count, by its entries where orders rise.
fn stage_same(
    image: &[u8],
    rules: usize,
    stage: u32,
    counted: usize,
    rising: bool,
    scratch: &mut Scratch,
    index: &[u8],
    at: usize,
) -> bool
    requires { (WellFormed image.now) × (rules ≡ rules_in image.now) × (NoLoop (rules_of image.now stage))
        × (counted ≡ counted_rules (rules_of image.now stage)) × (rising ≡ true → Rising (rules_of image.now stage))
        × Fits index.now at (order_bytes (book_of image.now) stage) }
    ensures { result ≡ stands_at index.now at (order_bytes (book_of image.now) stage) }
{
    if rising {
        return entries_rise(image, rules, stage, counted, index, at);
    }
    order_same(image, rules, stage, scratch, index, at)
}

fn orders_same(
    image: &[u8],
    head: Counts,
    sizes: &Sizes,
    scratch: &mut Scratch,
    index: &[u8],
    at: usize,
) -> bool
    requires { IndexReady image.now head sizes.now.stages sizes.now.common × Fits index.now at (flat head.stages (order_bytes (book_of image.now))) }
    ensures { result ≡ stands_at index.now at (flat head.stages (order_bytes (book_of image.now))) }
{
    let rules = head.rules as usize;
    let rising = ascends(image, head, &mut scratch.targeted, &mut scratch.free);
    let mut next = at;
    for stage in 0..head.stages {
        let counted = sizes.order_size(stage as usize);
        if !stage_same(image, rules, stage, counted, rising, scratch, index, next) {
            return false;
        }
        next += INDEX_RULE * counted;
    }
    true
}

// Whether the index is the book's, byte for byte and in length.
pub fn index_same(
    image: &[u8],
    head: Counts,
    sizes: &Sizes,
    scratch: &mut Scratch,
    index: &[u8],
) -> bool
    requires { IndexReady image.now head sizes.now.stages sizes.now.common }
    ensures { result ≡ same_bytes index.now (index_image (book_of image.now)) }
{
    let stages = head.stages as usize;
    if index.len() != sizes.index_size(stages) {
        return false;
    }
    if !pair_same(index, 0, head.stages, head.rules) {
        return false;
    }
    if !entries_same(sizes, stages, index, INDEX_HEADER) {
        return false;
    }
    let at = INDEX_HEADER + INDEX_STAGE * stages;
    orders_same(image, head, sizes, scratch, index, at)
}
