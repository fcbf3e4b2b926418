// Whether a loop is possible at all: whether some mark is both drawn, that is targeted by a rule that waits for a mark or has a condition, and
// named by a trigger or a text.
#![tactic(auto)]

ghost use Rattle.std.specs.Prelude.{◌≡◌, ◌<◌, length, replicate};
ghost use Rattle.book.specs.Image.{rules_in, book_of};
ghost use Rattle.book.specs.Marks.{mark_words};
ghost use Rattle.book.specs.WellFormed.{WellFormed};
ghost use Rattle.book.specs.WellRead.{Opened};
ghost use Rattle.texts.specs.Noted.{NamedIn};
ghost use Rattle.loop_chances.specs.Chances.{draws, awaited, may_loop};
ghost use Rattle.loop_chances.specs.Sorts.{Taken, Sorted, meet_word, meeting};

use book::Counts;
use book::rules::{NUMBER_AT, SENSE_AS_WRITTEN, SENSE_AT, TARGET_AT, TRIGGER_BECOME_YES};
use paper::{BOOK_HEADER, RULE_SIZE};
use texts::references::{MARK_WORDS, note};

// The target of rule r is drawn, if the rule waits for a mark or has a condition.
fn draw_target(image: &[u8], r: usize, drawn: &mut [u64; MARK_WORDS])
    requires { (WellFormed image.now) × (r < rules_in image.now) × (length drawn.old ≡ mark_words) }
    ensures { Taken drawn.old (λ m. draws (book_of image.now) m r) drawn.new }
{
    let at = BOOK_HEADER + RULE_SIZE * r;
    if (TRIGGER_BECOME_YES <= image[at]) | (SENSE_AS_WRITTEN <= image[at + SENSE_AT]) {
        let target = wire::u16_at(image, at + TARGET_AT);
        note(drawn, target);
    }
}

// The mark that rule r waits for is named.
fn name_awaited(image: &[u8], r: usize, waited: &mut [u64; MARK_WORDS])
    requires { (WellFormed image.now) × (r < rules_in image.now) × (length waited.old ≡ mark_words) }
    ensures { Taken waited.old (λ m. awaited (book_of image.now) m r) waited.new }
{
    let at = BOOK_HEADER + RULE_SIZE * r;
    if TRIGGER_BECOME_YES <= image[at] {
        let mark = wire::u16_at(image, at + NUMBER_AT);
        note(waited, mark);
    }
}

fn sort_rules(
    image: &[u8],
    rules: usize,
    drawn: &mut [u64; MARK_WORDS],
    waited: &mut [u64; MARK_WORDS],
)
    requires { (WellFormed image.now) × (rules ≡ rules_in image.now) × (drawn.old ≡ replicate mark_words 0) × (waited.old ≡ replicate mark_words 0) }
    ensures { Sorted image.now (rules_in image.now) drawn.new waited.new }
{
    for r in 0..rules {
        draw_target(image, r, drawn);
        name_awaited(image, r, waited);
    }
}

fn words_meet(drawn: u64, waited: u64, named: u64) -> bool
    ensures { result ≡ meet_word drawn waited named }
{
    drawn & (waited | named) != 0
}

// Whether some mark is drawn, and awaited or named by a text.
fn sets_meet<'a>(
    drawn: &'a [u64; MARK_WORDS],
    waited: &'a [u64; MARK_WORDS],
    named: &'a [u64; MARK_WORDS],
) -> bool
    ensures { result ≡ meeting drawn.now waited.now named.now }
{
    for k in 0..MARK_WORDS {
        if words_meet(drawn[k], waited[k], named[k]) {
            return true;
        }
    }
    false
}

// One pass over the rules. `named` has the marks of all texts, whether a rule asks them or not.
pub fn may_loop(image: &[u8], counts: Counts, named: &[u64; MARK_WORDS]) -> bool
    requires { (Opened image.now counts) × (NamedIn image.now named.now) }
    ensures { result ≡ may_loop (book_of image.now) }
{
    let mut drawn = [0u64; MARK_WORDS];
    let mut waited = [0u64; MARK_WORDS];
    sort_rules(image, counts.rules as usize, &mut drawn, &mut waited);
    sets_meet(&drawn, &waited, named)
}
