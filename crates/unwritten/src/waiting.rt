// How many counted and unwritten rules target each mark, and the set of the marks for which there is one.
ghost use Rattle.std.specs.Prelude.{◌≡◌, ◌≤◌, ◌<◌};
ghost use Rattle.paper.specs.Limits.{max_marks};
ghost use Rattle.book.specs.Book.{rule_of};
ghost use Rattle.book.specs.Image.{rules_in, book_of};
ghost use Rattle.book.specs.WellFormed.{WellFormed};
ghost use Rattle.order_theory.specs.Order.{Net, counted_rules};
ghost use Rattle.rule_order.specs.Nets.{rules_of};
ghost use Rattle.rule_order.specs.Freed.{Freed};
ghost use Rattle.unwritten.specs.Counters.{Counting, Begun, Struck};
ghost use Rattle.unwritten.specs.Spans.{Spanned};

use crate::Scratch;
use crate::written::{mark_unwritten, write_all};
use book::rules::TARGET_AT;
use paper::{BOOK_HEADER, MAX_CONDITIONS, MAX_MARKS, RULE_SIZE};
use rule_order::counted::is_counted;
use texts::references::MARK_WORDS;

// Where the rules that count for a stage are: from `from` to below `to`, and from `again` to below `end`.
#[derive(Clone, Copy)]
pub struct Span {
    pub from: usize,
    pub to: usize,
    pub again: usize,
    pub end: usize,
}

impl Span {
    // All rules of a book of so many.
    pub fn all(rules: usize) -> Span
        ensures { (N : Net) → Spanned N rules result }
    {
        Span {
            from: 0,
            to: rules,
            again: rules,
            end: rules,
        }
    }
}

// The mark that rule r targets.
pub fn target_of(image: &[u8], r: usize) -> usize
    requires { (WellFormed image.now) × (r < rules_in image.now) }
    ensures { (result ≡ (rule_of (book_of image.now) r).target) × (result < max_marks) }
{
    wire::u16_at(image, BOOK_HEADER + RULE_SIZE * r + TARGET_AT) as usize
}

// The rules from `from` to below `to` that count, after so many that count before them.
fn count_span(
    image: &[u8],
    from: usize,
    to: usize,
    stage: u32,
    before: usize,
    scratch: &mut Scratch,
) -> usize
    requires { (WellFormed image.now) × (from ≤ to) × (to ≤ rules_in image.now)
        × (Counting (rules_of image.now stage) before from scratch.old.targeted scratch.old.waits scratch.old.written) }
    ensures value { Counting (rules_of image.now stage) result to scratch.new.targeted scratch.new.waits scratch.new.written }
    ensures kept { scratch.new.free ≡ scratch.old.free }
{
    let mut counted = before;
    for r in from..to {
        if is_counted(image, r, stage) {
            counted += 1;
            mark_unwritten(&mut scratch.written, r);
            let t = target_of(image, r);
            scratch.targeted[t] += 1;
            let word = scratch.waits[t / 64];
            scratch.waits[t / 64] = sets::join(word, sets::one(t % 64));
        }
    }
    counted
}

// Before any counted rule is written: how many count, by one pass over the rules of the span, among which all that count are. Those that do
// not stand as written from the start, so that they are never ready and none waits for them. No text is read yet. Whatever the scratch held
// is gone: it serves stage after stage.
pub fn count_targets(
    image: &[u8],
    rules: usize,
    span: Span,
    stage: u32,
    scratch: &mut Scratch,
) -> usize
    requires { (WellFormed image.now) × (rules ≡ rules_in image.now) × (Spanned (rules_of image.now stage) rules span) }
    ensures value { (result ≡ counted_rules (rules_of image.now stage)) × (Begun (rules_of image.now stage) scratch.new.targeted scratch.new.waits scratch.new.written) }
    ensures freed { Freed image.now scratch.new.waits scratch.new.free }
{
    scratch.targeted = [0; MAX_MARKS];
    scratch.waits = [0; MARK_WORDS];
    write_all(&mut scratch.written, rules);
    scratch.free = [0; MAX_CONDITIONS];
    let first = count_span(image, span.from, span.to, stage, 0, scratch);
    count_span(image, span.again, span.end, stage, first, scratch)
}

impl Scratch {
    // One rule less targets the mark t: whether none is left.
    pub fn strike(&mut self, t: usize) -> bool
        requires { t < max_marks }
        ensures struck { Struck t self.old.targeted self.old.waits self.new.targeted self.new.waits result }
        ensures kept { (self.new.written ≡ self.old.written) × (self.new.free ≡ self.old.free) }
    {
        let n = self.targeted[t];
        if 1 < n {
            self.targeted[t] = n - 1;
            return false;
        }
        self.targeted[t] = 0;
        let word = self.waits[t / 64];
        self.waits[t / 64] = sets::less(word, sets::one(t % 64));
        true
    }
}
