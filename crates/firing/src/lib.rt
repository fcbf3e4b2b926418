// Whether a rule fires: its trigger, and its condition in the marks as they now stand.
#![tactic(auto)]

ghost use Rattle.std.specs.Prelude.{◌≡◌, true, ◌<◌};
ghost use Rattle.paper.specs.Limits.{max_events, max_marks};
ghost use Rattle.book.specs.Text.{holds, snap_of};
ghost use Rattle.book.specs.Book.{text_of};
ghost use Rattle.book.specs.Image.{stages_in, marks_in, conditions_in, book_of};
ghost use Rattle.book.specs.Firing.{triggered, allowed, firing};
ghost use Rattle.book.specs.WellRead.{trigger_exists, sense_exists, RuleFormed, Opened};

use book::header::words_from;
use book::reader::BookReader;
use book::{Counts, Rule, Sense, Trigger};
use paper::{MAX_MARKS, WORD_SIZE};
use texts::eval::text_holds;

// What condition c says.
pub fn condition_holds(image: &[u8], counts: Counts, c: usize, marks: &[bool; MAX_MARKS]) -> bool
    requires { (Opened image.now counts) × (c < conditions_in image.now) }
    ensures { result ≡ holds (snap_of marks.now) (text_of (book_of image.now) c) }
{
    let book = BookReader { image, counts };
    let span = book.condition(c);
    let at = words_from(counts.rules, counts.conditions) + WORD_SIZE * (span.start as usize);
    text_holds(image, at, span.count as usize, marks)
}

#[tactic(auto, unfolding(book::specs::Firing::allowed, book::specs::WellRead::sense_exists))]
pub fn sense_holds(image: &[u8], counts: Counts, sense: Sense, marks: &[bool; MAX_MARKS]) -> bool
    requires { (Opened image.now counts) × (sense_exists (conditions_in image.now) sense ≡ true) }
    ensures { result ≡ allowed (text_of (book_of image.now)) sense (snap_of marks.now) }
{
    match sense {
        Sense::NoCondition => true,
        Sense::AsWritten(c) => condition_holds(image, counts, c as usize, marks),
        Sense::Negated(c) => !condition_holds(image, counts, c as usize, marks),
    }
}

// The marks at the start of the call, and as they now stand.
#[tactic(auto, unfolding(book::specs::Firing::triggered, book::specs::WellRead::trigger_exists))]
pub fn trigger_holds<'a>(
    trigger: Trigger,
    stage: u32,
    start: &'a [bool; MAX_MARKS],
    marks: &'a [bool; MAX_MARKS],
) -> bool
    requires { trigger_exists max_events max_marks trigger ≡ true }
    ensures { result ≡ triggered (snap_of start.now) stage trigger (snap_of marks.now) }
{
    match trigger {
        Trigger::None => true,
        Trigger::Completed(c) => (c as u32) == stage,
        Trigger::BecomeYes(m) => !start[m as usize] & marks[m as usize],
        Trigger::BecomeNo(m) => start[m as usize] & !marks[m as usize],
    }
}

pub fn rule_fires<'a>(
    image: &[u8],
    counts: Counts,
    rule: Rule,
    stage: u32,
    start: &'a [bool; MAX_MARKS],
    marks: &'a [bool; MAX_MARKS],
) -> bool
    requires { (Opened image.now counts) × (RuleFormed (stages_in image.now) (marks_in image.now) (conditions_in image.now) rule) }
    ensures { result ≡ firing (text_of (book_of image.now)) (snap_of start.now) stage (snap_of marks.now) rule }
{
    trigger_holds(rule.trigger, stage, start, marks)
        && sense_holds(image, counts, rule.sense, marks)
}
