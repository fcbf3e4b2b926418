// The index image, written run behind run.
ghost use Rattle.std.specs.Prelude.{◌≡◌, true, ◌++◌, ℕ, ◌+◌, ◌^◌, ◌≤◌, ◌<◌, length};
ghost use Rattle.paper.specs.Limits.{max_events};
ghost use Rattle.general.specs.Lists.{flat};
ghost use Rattle.general.specs.Writing.{Fits, Wrote};
ghost use Rattle.wire.specs.Wire.{bytes32};
ghost use Rattle.order_theory.specs.Order.{NoLoop};
ghost use Rattle.order_theory.specs.Rising.{Rising};
ghost use Rattle.book.specs.Image.{rules_in, book_of};
ghost use Rattle.book.specs.WellFormed.{WellFormed};
ghost use Rattle.book.specs.WellRead.{Opened};
ghost use Rattle.rule_order.specs.Nets.{rules_of};
ghost use Rattle.unwritten.specs.Spans.{Spanned};
ghost use Rattle.index.specs.Index.{order_bytes, index_image};
ghost use Rattle.index.specs.Sizes.{entry_from, Sized};
ghost use Rattle.index.specs.Ready.{IndexReady};
ghost use Rattle.index.specs.Upwards.{span_bytes};

use crate::rising::ascends;
use crate::sizes::Sizes;
use crate::spans::Places;
use book::Counts;
use ordering::scan::{Ranges, Scan, next_rule};
use paper::{INDEX_HEADER, INDEX_RULE, INDEX_STAGE};
use rule_order::counted::is_counted;
use unwritten::Scratch;
use unwritten::waiting::{Span, count_targets};

// Two numbers of 32 bits.
fn put_pair(room: &mut [u8], at: usize, first: u32, second: u32) -> usize
    requires { at + 8 ≤ length room.old }
    ensures { Wrote room.old at (bytes32 first ++ bytes32 second) result room.new }
{
    wire::put32(room, at, first);
    wire::put32(room, at + 4, second);
    at + 8
}

// Of a stage: the byte at which its order begins, or would begin, and how many rules it has.
fn put_entry(room: &mut [u8], at: usize, offset: usize, size: usize) -> usize
    requires { (at + 8 ≤ length room.old) × (offset < 2 ^ 32) × (size < 2 ^ 32) }
    ensures { Wrote room.old at (bytes32 offset ++ bytes32 size) result room.new }
{
    put_pair(room, at, offset as u32, size as u32)
}

fn put_entries(sizes: &Sizes, stages: usize, room: &mut [u8], at: usize) -> usize
    requires { Sized stages sizes.now.stages sizes.now.common × Fits room.old at (flat stages (entry_from stages sizes.now.stages sizes.now.common)) }
    ensures { Wrote room.old at (flat stages (entry_from stages sizes.now.stages sizes.now.common)) result room.new }
{
    let mut next = at;
    let mut offset = INDEX_HEADER + INDEX_STAGE * stages;
    for stage in 0..stages {
        let size = sizes.order_size(stage);
        next = put_entry(room, next, offset, size);
        offset += INDEX_RULE * size;
    }
    next
}

// The order of a stage, rule by rule, in lent scratch. One pass over the rules of the span, among which all that count are, and the scan.
pub fn put_order(
    image: &[u8],
    rules: usize,
    span: Span,
    stage: u32,
    scratch: &mut Scratch,
    room: &mut [u8],
    at: usize,
) -> usize
    requires { (WellFormed image.now) × (rules ≡ rules_in image.now) × (Spanned (rules_of image.now stage) rules span)
        × (NoLoop (rules_of image.now stage)) × Fits room.old at (order_bytes (book_of image.now) stage) }
    ensures { Wrote room.old at (order_bytes (book_of image.now) stage) result room.new }
{
    let counted = count_targets(image, rules, span, stage, scratch);
    let mut next = at;
    let mut ranges = Ranges::empty();
    let mut scan = Scan::start();
    for j in 0..counted {
        let Some(turned) = next_rule(image, rules, scan, scratch, &mut ranges) else {
            unreachable!()
        };
        scan = turned;
        wire::put32(room, next, scan.rule as u32);
        next += INDEX_RULE;
    }
    next
}

// Rule r, if it counts for the stage.
fn put_counted(image: &[u8], stage: u32, r: usize, room: &mut [u8], at: usize) -> usize
    requires { (WellFormed image.now) × (r < rules_in image.now) × Fits room.old at (span_bytes image.now stage r (r + 1)) }
    ensures { Wrote room.old at (span_bytes image.now stage r (r + 1)) result room.new }
{
    if !is_counted(image, r, stage) {
        return at;
    }
    wire::put32(room, at, r as u32);
    at + INDEX_RULE
}

// The rules from `from` to below `to` that count for the stage, upwards.
fn put_span(image: &[u8], stage: u32, from: usize, to: usize, room: &mut [u8], at: usize) -> usize
    requires { (WellFormed image.now) × (from ≤ to) × (to ≤ rules_in image.now) × Fits room.old at (span_bytes image.now stage from to) }
    ensures { Wrote room.old at (span_bytes image.now stage from to) result room.new }
{
    let mut next = at;
    for r in from..to {
        next = put_counted(image, stage, r, room, next);
    }
    next
}

// The order of a stage where orders rise: the rules that count, upwards. One pass over the rules of the span.
fn put_rising(image: &[u8], span: Span, stage: u32, room: &mut [u8], at: usize) -> usize
    requires { (WellFormed image.now) × (Spanned (rules_of image.now stage) (rules_in image.now) span)
        × (Rising (rules_of image.now stage)) × Fits room.old at (order_bytes (book_of image.now) stage) }
    ensures { Wrote room.old at (order_bytes (book_of image.now) stage) result room.new }
{
    let next = put_span(image, stage, span.from, span.to, room, at);
    put_span(image, stage, span.again, span.end, room, next)
}

// The order of a stage, listed upwards where orders rise.
fn put_stage(
    image: &[u8],
    rules: usize,
    span: Span,
    stage: u32,
    rising: bool,
    scratch: &mut Scratch,
    room: &mut [u8],
    at: usize,
) -> usize
    requires { (WellFormed image.now) × (rules ≡ rules_in image.now) × (Spanned (rules_of image.now stage) rules span)
        × (NoLoop (rules_of image.now stage)) × (rising ≡ true → Rising (rules_of image.now stage)) × Fits room.old at (order_bytes (book_of image.now) stage) }
    ensures { Wrote room.old at (order_bytes (book_of image.now) stage) result room.new }
{
    if rising {
        return put_rising(image, span, stage, room, at);
    }
    put_order(image, rules, span, stage, scratch, room, at)
}

// The orders of all stages: two passes over the rules and one over the texts tell whether orders rise, and one over the rules among which
// rules those that count for each stage are.
fn put_orders(
    image: &[u8],
    head: Counts,
    scratch: &mut Scratch,
    room: &mut [u8],
    at: usize,
) -> usize
    requires { (Opened image.now head) × (head.stages ≤ max_events) × ((t : ℕ) → t < head.stages → NoLoop (rules_of image.now t))
        × Fits room.old at (flat head.stages (order_bytes (book_of image.now))) }
    ensures { Wrote room.old at (flat head.stages (order_bytes (book_of image.now))) result room.new }
{
    let rules = head.rules as usize;
    let rising = ascends(image, head, &mut scratch.targeted, &mut scratch.free);
    let places = Places::of(image, rules);
    let mut next = at;
    for stage in 0..head.stages {
        let span = places.span(rules, stage as usize);
        next = put_stage(image, rules, span, stage, rising, scratch, room, next);
    }
    next
}

// The whole index of a book without a loop for any stage, from the start of a room that it fits.
pub fn put_index(
    image: &[u8],
    head: Counts,
    sizes: &Sizes,
    scratch: &mut Scratch,
    room: &mut [u8],
) -> usize
    requires { IndexReady image.now head sizes.now.stages sizes.now.common × Fits room.old 0 (index_image (book_of image.now)) }
    ensures { Wrote room.old 0 (index_image (book_of image.now)) result room.new }
{
    let a = put_pair(room, 0, head.stages, head.rules);
    let b = put_entries(sizes, head.stages as usize, room, a);
    put_orders(image, head, scratch, room, b)
}
