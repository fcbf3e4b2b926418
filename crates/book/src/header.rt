// The image's header: five counts, and where rules, conditions and words lie.
ghost use Rattle.std.specs.Prelude.{◌≡◌, ◌≤◌, length};
ghost use Rattle.paper.specs.Limits.{book_header};
ghost use Rattle.book.specs.Image.{rule_place, condition_place};
ghost use Rattle.book.specs.Judging.{counts_of, counts_fit, layout_fits};

use crate::Counts;
use paper::{
    BOOK_HEADER, CONDITION_SIZE, MAX_CONDITIONS, MAX_EVENTS, MAX_MARKS, MAX_RULES, MAX_WORDS,
    RULE_SIZE, WORD_SIZE,
};

// ---- the header's fields, at these bytes of the image
pub const STAGE_COUNT_AT: usize = 0;

pub const MARK_COUNT_AT: usize = 4;

pub const RULE_COUNT_AT: usize = 8;

pub const CONDITION_COUNT_AT: usize = 12;

pub const WORD_COUNT_AT: usize = 16;

pub const RULES_OFFSET_AT: usize = 20;

pub const CONDITIONS_OFFSET_AT: usize = 24;

pub const WORDS_OFFSET_AT: usize = 28;

pub fn counts_at(image: &[u8]) -> Counts
    requires { book_header ≤ length image.now }
    ensures { result ≡ counts_of image.now }
{
    Counts {
        stages: wire::u32_at(image, STAGE_COUNT_AT),
        marks: wire::u32_at(image, MARK_COUNT_AT),
        rules: wire::u32_at(image, RULE_COUNT_AT),
        conditions: wire::u32_at(image, CONDITION_COUNT_AT),
        words: wire::u32_at(image, WORD_COUNT_AT),
    }
}

#[tactic(auto, unfolding(crate::specs::Judging::counts_fit))]
pub fn counts_fit(h: Counts) -> bool
    ensures { result ≡ counts_fit h }
{
    h.stages as usize <= MAX_EVENTS
        && h.stages <= h.marks
        && h.marks as usize <= MAX_MARKS
        && h.rules as usize <= MAX_RULES
        && h.conditions as usize <= MAX_CONDITIONS
        && h.words as usize <= MAX_WORDS
}

// The byte at which the conditions begin.
pub fn conditions_from(rules: u32) -> usize
    ensures { result ≡ rule_place rules }
{
    BOOK_HEADER + RULE_SIZE * (rules as usize)
}

// The byte at which the words begin.
pub fn words_from(rules: u32, conditions: u32) -> usize
    ensures { result ≡ condition_place rules conditions }
{
    BOOK_HEADER + RULE_SIZE * (rules as usize) + CONDITION_SIZE * (conditions as usize)
}

#[tactic(auto, unfolding(crate::specs::Judging::layout_fits))]
pub fn layout_fits(image: &[u8], h: Counts) -> bool
    requires { book_header ≤ length image.now }
    ensures { result ≡ layout_fits image.now h }
{
    let words = words_from(h.rules, h.conditions);
    let end = words + WORD_SIZE * (h.words as usize);
    wire::u32_at(image, RULES_OFFSET_AT) as usize == BOOK_HEADER
        && wire::u32_at(image, CONDITIONS_OFFSET_AT) as usize == conditions_from(h.rules)
        && wire::u32_at(image, WORDS_OFFSET_AT) as usize == words
        && image.len() == end
}
