// The running order rule by rule: always the lowest-numbered unwritten counted rule all of whose predecessors are written.
ghost use Rattle.std.specs.Prelude.{◌≡◌, true, ◌≤◌, ◌<◌};
ghost use Rattle.paper.specs.Limits.{max_marks, max_rules};
ghost use Rattle.book.specs.Image.{rules_in, book_of};
ghost use Rattle.book.specs.WellFormed.{WellFormed};
ghost use Rattle.rule_order.specs.Freed.{Freed, Shrunk};
ghost use Rattle.unwritten.specs.Words.{flagged};
ghost use Rattle.ordering.specs.Ready.{may_stand};
ghost use Rattle.ordering.specs.Passed.{Lowered, Raised, Looked};
ghost use Rattle.ordering.specs.Scanning.{Turn, moved};
ghost use Rattle.ordering.specs.Turning.{empty_ranges, Turned};

use paper::{MAX_CONDITIONS, MAX_MARKS};
use rule_order::references::mark_referred;
use texts::references::MARK_WORDS;
use unwritten::Scratch;
use unwritten::waiting::target_of;
use unwritten::written::{RULE_WORDS, is_written, mark_written, onward};

// The rule that was found, and where the scan stands then. An unwritten rule below `at`, or from `until` on and below `front`, was
// passed over: it waits for a mark, and stands in the range that is noted for that mark.
#[derive(Clone, Copy)]
pub struct Scan {
    pub rule: usize,
    pub at: usize,
    pub until: usize,
    pub front: usize,
}

impl Scan {
    // Before the first rule.
    pub fn start() -> Scan
        ensures { (result.at ≡ 0) × (result.front ≡ 0) }
    {
        Scan {
            rule: 0,
            at: 0,
            until: 0,
            front: 0,
        }
    }
}

// Above every rule: where the range of a mark begins for which no rule was passed over.
const NO_RULE: u32 = u32::MAX;

// For each mark the range of the rules that were passed over since they wait for it: from `low` on, and below `high`.
#[derive(Drop)]
pub struct Ranges {
    pub low: [u32; MAX_MARKS],
    pub high: [u32; MAX_MARKS],
}

impl Ranges {
    // No rule was passed over yet.
    pub fn empty() -> Ranges
        ensures { result ≡ empty_ranges }
    {
        Ranges {
            low: [NO_RULE; MAX_MARKS],
            high: [0; MAX_MARKS],
        }
    }

    // Rule r is in the range of the mark m.
    fn widen(&mut self, m: usize, r: u32)
        requires { (m < max_marks) × (r < max_rules) }
        ensures low { Lowered self.old.low m r self.new.low }
        ensures high { Raised self.old.high m r self.new.high }
    {
        self.low[m] = self.low[m].min(r);
        self.high[m] = self.high[m].max(r + 1);
    }
}

// Whether rule r may stand next. Where it is unwritten and may not, it is taken into the range of a mark that it waits for.
fn look(
    image: &[u8],
    r: usize,
    waits: &[u64; MARK_WORDS],
    written: &[u64; RULE_WORDS],
    free: &mut [u32; MAX_CONDITIONS],
    ranges: &mut Ranges,
) -> bool
    requires { (WellFormed image.now) × (r < rules_in image.now) × (Freed image.now waits.now free.old) }
    ensures looked { Looked image.now waits.now written.now ranges.old.low ranges.old.high r result ranges.new.low ranges.new.high }
    ensures freed { Freed image.now waits.now free.new }
{
    if is_written(written, r) {
        return false;
    }
    match mark_referred(image, r, free, waits) {
        Some(m) => {
            ranges.widen(m, r as u32);
            false
        }
        None => true,
    }
}

// Where the scan goes on from `to`: at the front, once it is past what is to be looked at again.
fn ahead(to: usize, until: usize, front: usize) -> usize
    ensures { (to ≤ result) × (to < result → (until ≤ to) × (result ≡ front)) }
{
    if to < until {
        return to;
    }
    to.max(front)
}

// Up to where rules below `after` and behind it are to be looked at again: to the end of a range, and as far as was to do before.
fn reach(after: usize, until: usize, high: u32) -> usize
    ensures { (high ≤ result) × (after < until → until ≤ result) }
{
    let last = high as usize;
    if until <= after {
        return last;
    }
    last.max(until)
}

// Writes the rule `at`, which is ready. Where its target is settled then, the scan goes back to the range of that mark.
fn write_rule(image: &[u8], at: usize, scan: Scan, scratch: &mut Scratch, ranges: &Ranges) -> Scan
    requires { (WellFormed image.now) × (at < rules_in image.now) × (may_stand (book_of image.now) (flagged scratch.old.written) scratch.old.waits at ≡ true) }
    ensures rule { result.rule ≡ at }
    ensures turn { Turn image.now (moved scan at) scratch.old.targeted scratch.old.waits scratch.old.written ranges.now.low ranges.now.high
        result scratch.new.targeted scratch.new.waits scratch.new.written ranges.now.low ranges.now.high }
    ensures shrunk { Shrunk scratch.old.waits scratch.new.waits }
    ensures kept { scratch.new.free ≡ scratch.old.free }
{
    mark_written(&mut scratch.written, at);
    let t = target_of(image, at);
    let after = at + 1;
    let front = scan.front.max(after);
    if !scratch.strike(t) {
        return Scan {
            rule: at,
            at: after,
            until: scan.until,
            front,
        };
    }
    Scan {
        rule: at,
        at: after.min(ranges.low[t] as usize),
        until: reach(after, scan.until, ranges.high[t]),
        front,
    }
}

// The next rule, which is then written, or none where none is ready.
// The scan goes on from where it stands. A rule that it passes over is noted at a mark that the rule waits for. It goes back only where
// a mark has just been settled, to the lowest rule noted there, and looks again up to the highest: then it goes on at the front. So for
// the whole order it is one pass, and one over the range of each mark at which a rule was noted: none in a derived book. Where a mark is
// settled within a range, and its own range lies below, what stands between is looked at once more. A pass looks at
// a word of flags for 64 rules, and asks those that are unwritten.
pub fn next_rule(
    image: &[u8],
    rules: usize,
    scan: Scan,
    scratch: &mut Scratch,
    ranges: &mut Ranges,
) -> Option<Scan>
    requires { (WellFormed image.now) × (rules ≡ rules_in image.now) × (Freed image.now scratch.old.waits scratch.old.free) }
    ensures turn { Turned image.now scan scratch.old ranges.old result scratch.new ranges.new }
    ensures freed { Freed image.now scratch.new.waits scratch.new.free }
{
    let mut here = scan.at;
    while here < rules {
        if look(
            image,
            here,
            &scratch.waits,
            &scratch.written,
            &mut scratch.free,
            ranges,
        ) {
            return Some(write_rule(image, here, scan, scratch, ranges));
        }
        here = ahead(onward(&scratch.written, here), scan.until, scan.front);
    }
    None
}
