// Conditions and their postfix texts, judged and read.
#![tactic(auto)]

pub mod eval;
pub mod references;

ghost use Rattle.std.specs.Prelude.{◌≡◌, true, not, ◌+◌, ◌*◌, ◌≤◌, length};
ghost use Rattle.paper.specs.Limits.{max_stack, condition_size, word_size};
ghost use Rattle.general.specs.Below.{first};
ghost use Rattle.book.specs.GoodTexts.{good, next_depth};
ghost use Rattle.book.specs.Image.{condition_place, word_place};
ghost use Rattle.book.specs.Read.{words_from};
ghost use Rattle.book.specs.Judging.{condition_fits};
ghost use Rattle.book.specs.Marks.{mark_words};
ghost use Rattle.texts.specs.Noted.{Added, record_words, Named};

use crate::references::{MARK_WORDS, note};
use book::conditions::COUNT_AT;
use book::header::{conditions_from, words_from};
use paper::{CONDITION_SIZE, MAX_STACK, WORD_SIZE};

// How deep the stack is after a word, or more than it may be where the word may not follow.
#[tactic(auto, unfolding(book::specs::GoodTexts::next_depth, book::specs::GoodTexts::follows, book::specs::GoodTexts::depth_after))]
fn next_depth(marks: u32, word: u16, depth: usize) -> usize
    requires { depth ≤ max_stack }
    ensures { result ≡ next_depth marks word depth }
{
    match word {
        paper::AND | paper::OR => if 2 <= depth { depth - 1 } else { MAX_STACK + 1 },
        paper::NOT => if 1 <= depth { depth } else { MAX_STACK + 1 },
        _ => if (word as u32) < marks && depth < MAX_STACK {
            depth + 1
        } else {
            MAX_STACK + 1
        },
    }
}

// Whether the text of so many words from the byte `at` is good, where marks are below `marks`. The set takes in the marks that it names.
fn text_fits(
    image: &[u8],
    at: usize,
    count: usize,
    marks: u32,
    named: &mut [u64; MARK_WORDS],
) -> bool
    requires { (at + word_size * count ≤ length image.now) × (length named.old ≡ mark_words) }
    ensures value { result ≡ good marks (words_from image.now at count) }
    ensures added { result ≡ true → Added named.old (words_from image.now at count) named.new }
{
    let mut depth: usize = 0;
    for i in 0..count {
        let word = wire::u16_at(image, at + WORD_SIZE * i);
        depth = next_depth(marks, word, depth);
        if MAX_STACK < depth {
            return false;
        }
        note(named, word);
    }
    depth == 1
}

// Whether the condition record at the byte `at` is good, where `words` words begin at the byte `from`.
#[tactic(auto, unfolding(book::specs::Judging::condition_fits))]
fn condition_fits(
    image: &[u8],
    at: usize,
    from: usize,
    marks: u32,
    words: u32,
    named: &mut [u64; MARK_WORDS],
) -> bool
    requires { (at + condition_size ≤ length image.now) × (from + word_size * words ≤ length image.now) × (length named.old ≡ mark_words) }
    ensures value { result ≡ condition_fits marks words from image.now at }
    ensures added { result ≡ true → Added named.old (record_words image.now from at) named.new }
{
    let start = wire::u32_at(image, at) as usize;
    let count = wire::u32_at(image, at + COUNT_AT) as usize;
    1 <= count
        && start + count <= words as usize
        && text_fits(image, from + WORD_SIZE * start, count, marks, named)
}

// The lowest condition that is bad, or the number of conditions, and then the set has the marks that the texts name. Each text is read once.
pub fn first_bad_condition(
    image: &[u8],
    rules: u32,
    conditions: u32,
    words: u32,
    marks: u32,
    named: &mut [u64; MARK_WORDS],
) -> u32
    requires { word_place rules conditions words ≤ length image.now }
    ensures value { result ≡ first conditions (λ c. not (condition_fits marks words (condition_place rules conditions) image.now (condition_place rules c))) }
    ensures named { result ≡ conditions → Named image.now rules conditions conditions named.new }
{
    *named = [0; MARK_WORDS];
    let begin = conditions_from(rules);
    let from = words_from(rules, conditions);
    for c in 0..conditions {
        let at = begin + CONDITION_SIZE * (c as usize);
        if !condition_fits(image, at, from, marks, words, named) {
            return c;
        }
    }
    conditions
}
