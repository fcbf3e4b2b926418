// Whether whatever comes before a rule has a lower number: then each order is the counted rules upwards.
ghost use Rattle.std.specs.Prelude.{◌≡◌, true, ℕ, ◌+◌, ◌*◌, ◌≤◌, ◌<◌, length, get_or};
ghost use Rattle.paper.specs.Limits.{max_marks, word_size};
ghost use Rattle.order_theory.specs.Rising.{Rising};
ghost use Rattle.book.specs.Book.{text_of};
ghost use Rattle.book.specs.Image.{rules_in, conditions_in, book_of};
ghost use Rattle.book.specs.Read.{words_from};
ghost use Rattle.book.specs.WellFormed.{WellFormed};
ghost use Rattle.book.specs.WellRead.{Opened};
ghost use Rattle.rule_order.specs.Nets.{rules_of};
ghost use Rattle.index.specs.Ascending.{Targeted, Above, Asking, Awaiting, Reading};

use book::Counts;
use book::header::words_from;
use book::reader::condition_in;
use book::rules::{CONDITION_AT, NUMBER_AT, SENSE_AS_WRITTEN, SENSE_AT, TRIGGER_BECOME_YES};
use paper::{BOOK_HEADER, MAX_CONDITIONS, MAX_MARKS, RULE_SIZE, WORD_SIZE};
use unwritten::waiting::target_of;

// For each mark how many rules there are up to the last that targets it, 0 where none does. One pass over the rules.
fn last_targets(image: &[u8], rules: usize, last: &mut [u32; MAX_MARKS])
    requires { (WellFormed image.now) × (rules ≡ rules_in image.now) }
    ensures { Targeted image.now rules last.new }
{
    *last = [0; MAX_MARKS];
    for r in 0..rules {
        let target = target_of(image, r);
        last[target] = r as u32 + 1;
    }
}

// That number of a text's word, 0 for one that is no mark.
fn last_of(last: &[u32; MAX_MARKS], word: usize) -> u32
    ensures { word < max_marks → get_or last.now word 0 ≤ result }
{
    if MAX_MARKS <= word {
        return 0;
    }
    last[word]
}

// The highest of these numbers among the marks of a text of so many words from the byte `at`.
fn last_named(image: &[u8], at: usize, count: usize, last: &[u32; MAX_MARKS]) -> u32
    requires { at + word_size * count ≤ length image.now }
    ensures { Above last.now (words_from image.now at count) count result }
{
    let mut most = 0;
    for i in 0..count {
        let word = wire::u16_at(image, at + WORD_SIZE * i) as usize;
        most = last_of(last, word).max(most);
    }
    most
}

fn last_asked(image: &[u8], head: Counts, c: usize, last: &[u32; MAX_MARKS]) -> u32
    requires { (Opened image.now head) × (c < conditions_in image.now) }
    ensures { Above last.now (text_of (book_of image.now) c) (length (text_of (book_of image.now) c)) result }
{
    let span = condition_in(image, head, c);
    let from = words_from(head.rules, head.conditions);
    last_named(
        image,
        from + WORD_SIZE * (span.start as usize),
        span.count as usize,
        last,
    )
}

// The same for each condition: one pass over the texts.
fn last_texts(
    image: &[u8],
    head: Counts,
    last: &[u32; MAX_MARKS],
    asked: &mut [u32; MAX_CONDITIONS],
)
    requires { Opened image.now head }
    ensures { Asking image.now last.now (conditions_in image.now) asked.new }
{
    *asked = [0; MAX_CONDITIONS];
    let conditions = head.conditions as usize;
    for c in 0..conditions {
        asked[c] = last_asked(image, head, c, last);
    }
}

// Whether the mark that rule r's trigger waits for is targeted by rules below r only.
fn mark_ascends(image: &[u8], r: usize, last: &[u32; MAX_MARKS]) -> bool
    requires { (WellFormed image.now) × (r < rules_in image.now) }
    ensures { result ≡ true → Awaiting image.now last.now r }
{
    let at = BOOK_HEADER + RULE_SIZE * r;
    if image[at] < TRIGGER_BECOME_YES {
        return true;
    }
    let mark = wire::u16_at(image, at + NUMBER_AT) as usize;
    last[mark] <= r as u32
}

// The same of the marks of its condition's text.
fn text_ascends(image: &[u8], r: usize, asked: &[u32; MAX_CONDITIONS]) -> bool
    requires { (WellFormed image.now) × (r < rules_in image.now) }
    ensures { result ≡ true → Reading image.now asked.now r }
{
    let at = BOOK_HEADER + RULE_SIZE * r;
    if image[at + SENSE_AT] < SENSE_AS_WRITTEN {
        return true;
    }
    let c = wire::u16_at(image, at + CONDITION_AT) as usize;
    asked[c] <= r as u32
}

// Whether no rule refers to its own target or to that of a later rule, in two lent arrays: two passes over the rules and one over the texts.
pub fn ascends(
    image: &[u8],
    head: Counts,
    last: &mut [u32; MAX_MARKS],
    asked: &mut [u32; MAX_CONDITIONS],
) -> bool
    requires { Opened image.now head }
    ensures { result ≡ true → (stage : ℕ) → Rising (rules_of image.now stage) }
{
    let rules = head.rules as usize;
    last_targets(image, rules, last);
    last_texts(image, head, last, asked);
    for r in 0..rules {
        if !mark_ascends(image, r, last) || !text_ascends(image, r, asked) {
            return false;
        }
    }
    true
}
