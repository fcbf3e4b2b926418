// Which mark of a set a rule refers to.
ghost use Rattle.std.specs.Prelude.{◌<◌};
ghost use Rattle.book.specs.Book.{rule_of, text_of};
ghost use Rattle.book.specs.Firing.{awaits, reads, refers};
ghost use Rattle.book.specs.Image.{rules_in, book_of};
ghost use Rattle.book.specs.WellFormed.{WellFormed};
ghost use Rattle.rule_order.specs.References.{Witnessed};
ghost use Rattle.rule_order.specs.Freed.{Freed};

use crate::reading::mark_named;
use book::rules::{CONDITION_AT, NUMBER_AT, SENSE_AS_WRITTEN, SENSE_AT, TRIGGER_BECOME_YES};
use paper::{BOOK_HEADER, MAX_CONDITIONS, RULE_SIZE};
use texts::references::MARK_WORDS;

// A mark of the set that rule r waits for to become yes or no. From raw bytes: a rule is asked whenever the scan meets it.
fn mark_awaited(image: &[u8], r: usize, set: &[u64; MARK_WORDS]) -> Option<usize>
    requires { (WellFormed image.now) × (r < rules_in image.now) }
    ensures { Witnessed (awaits (rule_of (book_of image.now) r).trigger) set.now result }
{
    let at = BOOK_HEADER + RULE_SIZE * r;
    if image[at] < TRIGGER_BECOME_YES {
        return None;
    }
    let m = wire::u16_at(image, at + NUMBER_AT) as usize;
    if sets::member(set[m / 64], m % 64) {
        return Some(m);
    }
    None
}

// A mark of the set that the condition of rule r names.
#[tactic(auto, using(crate::specs::References::reads_none))]
fn mark_read(
    image: &[u8],
    r: usize,
    free: &mut [u32; MAX_CONDITIONS],
    set: &[u64; MARK_WORDS],
) -> Option<usize>
    requires { (WellFormed image.now) × (r < rules_in image.now) × (Freed image.now set.now free.old) }
    ensures witness { Witnessed (reads (text_of (book_of image.now)) (rule_of (book_of image.now) r).sense) set.now result }
    ensures freed { Freed image.now set.now free.new }
{
    let at = BOOK_HEADER + RULE_SIZE * r;
    if image[at + SENSE_AT] < SENSE_AS_WRITTEN {
        return None;
    }
    mark_named(
        image,
        wire::u16_at(image, at + CONDITION_AT) as usize,
        free,
        set,
    )
}

// A mark of the set that rule r refers to.
pub fn mark_referred(
    image: &[u8],
    r: usize,
    free: &mut [u32; MAX_CONDITIONS],
    set: &[u64; MARK_WORDS],
) -> Option<usize>
    requires { (WellFormed image.now) × (r < rules_in image.now) × (Freed image.now set.now free.old) }
    ensures witness { Witnessed (refers (book_of image.now) r) set.now result }
    ensures freed { Freed image.now set.now free.new }
{
    match mark_awaited(image, r, set) {
        Some(m) => Some(m),
        None => mark_read(image, r, free, set),
    }
}
