// Which mark of a set the text of a condition names. Where the set only shrinks, each word is passed once: one number for each
// condition says how far its text was read.
ghost use Rattle.std.specs.Prelude.{◌≡◌, ◌+◌, ◌*◌, ◌≤◌, ◌<◌, length};
ghost use Rattle.paper.specs.Limits.{word_size};
ghost use Rattle.book.specs.Book.{text_of};
ghost use Rattle.book.specs.Image.{rules_in, conditions_in, condition_place, book_of};
ghost use Rattle.book.specs.WellFormed.{WellFormed};
ghost use Rattle.rule_order.specs.References.{names, Witnessed};
ghost use Rattle.rule_order.specs.Freed.{is_in, Freed, Stopped};

use book::conditions::COUNT_AT;
use book::header::{CONDITIONS_OFFSET_AT, WORDS_OFFSET_AT};
use paper::{CONDITION_SIZE, MAX_CONDITIONS, MAX_MARKS, WORD_SIZE};
use texts::references::MARK_WORDS;

// Whether a word is a mark of the set. The words and, or, not lie above every mark.
#[tactic(auto, unfolding(crate::specs::Freed::is_in))]
fn mark_in(set: &[u64; MARK_WORDS], word: u16) -> bool
    ensures { result ≡ is_in set.now word }
{
    let m = word as usize;
    m < MAX_MARKS && sets::member(set[m / 64], m % 64)
}

// The first word, from word `from` on, that is a mark of the set, or the number of words. The text begins at the byte `at`.
fn read_on(image: &[u8], at: usize, from: u32, count: u32, set: &[u64; MARK_WORDS]) -> u32
    requires { (at + word_size * count ≤ length image.now) × (from ≤ count) }
    ensures { Stopped image.now at from count set.now result }
{
    for i in from..count {
        if mark_in(set, wire::u16_at(image, at + WORD_SIZE * (i as usize))) {
            return i;
        }
    }
    count
}

// The byte at which the record of condition c stands.
fn record_at(image: &[u8], c: usize) -> usize
    requires { (WellFormed image.now) × (c < conditions_in image.now) }
    ensures { result ≡ condition_place (rules_in image.now) c }
{
    wire::u32_at(image, CONDITIONS_OFFSET_AT) as usize + CONDITION_SIZE * c
}

// A mark of the set that the text of condition c names: read on from where it was left.
pub fn mark_named(
    image: &[u8],
    c: usize,
    free: &mut [u32; MAX_CONDITIONS],
    set: &[u64; MARK_WORDS],
) -> Option<usize>
    requires { (WellFormed image.now) × (c < conditions_in image.now) × (Freed image.now set.now free.old) }
    ensures witness { Witnessed (names (text_of (book_of image.now) c)) set.now result }
    ensures freed { Freed image.now set.now free.new }
{
    let record = record_at(image, c);
    let start = wire::u32_at(image, record) as usize;
    let count = wire::u32_at(image, record + COUNT_AT);
    let words = wire::u32_at(image, WORDS_OFFSET_AT) as usize;
    let at = words + WORD_SIZE * start;
    let to = read_on(image, at, free[c], count, set);
    free[c] = to;
    if to == count {
        return None;
    }
    Some(wire::u16_at(image, at + WORD_SIZE * (to as usize)) as usize)
}
