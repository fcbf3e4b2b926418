// The numbers that a rule is summed up by: its target and effect, the stage whose completion it waits for, its sense; and the senses of a group of rules.
#![tactic(auto)]

ghost use Rattle.std.specs.Prelude.{◌≡◌, ◌+◌, ◌*◌, ◌≤◌, ◌<◌};
ghost use Rattle.paper.specs.Limits.{max_marks, max_events};
ghost use Rattle.wide.specs.Number.{number};
ghost use Rattle.book.specs.Book.{rule_of};
ghost use Rattle.book.specs.Image.{rules_in, marks_in, book_of};
ghost use Rattle.book.specs.WellFormed.{WellFormed};
ghost use Rattle.senses.specs.Senses.{side, turn, stages_at, code_of, twin, with_sense, meets};

use book::rules::{
    CONDITION_AT, EFFECT_AT, EFFECT_SET, NUMBER_AT, SENSE_AS_WRITTEN, SENSE_AT, SENSE_NONE,
    TARGET_AT, TRIGGER_COMPLETED,
};
use paper::{BOOK_HEADER, MAX_EVENTS, RULE_SIZE};
use wide::Set;

// ---- one rule
pub fn target_of(image: &[u8], r: usize) -> usize
    requires { (WellFormed image.now) × (r < rules_in image.now) }
    ensures { (result ≡ (rule_of (book_of image.now) r).target) × (result < marks_in image.now) }
{
    wire::u16_at(image, BOOK_HEADER + RULE_SIZE * r + TARGET_AT) as usize
}

pub fn sets_it(image: &[u8], r: usize) -> bool
    requires { (WellFormed image.now) × (r < rules_in image.now) }
    ensures { result ≡ (rule_of (book_of image.now) r).effect }
{
    image[BOOK_HEADER + RULE_SIZE * r + EFFECT_AT] == EFFECT_SET
}

// The stage whose completion rule r waits for, or MAX_EVENTS where its trigger is another.
pub fn turn_of(image: &[u8], r: usize) -> usize
    requires { (WellFormed image.now) × (r < rules_in image.now) }
    ensures { (result ≡ turn (rule_of (book_of image.now) r).trigger) × (result ≤ max_events) }
{
    let at = BOOK_HEADER + RULE_SIZE * r;
    if image[at] == TRIGGER_COMPLETED {
        return wire::u16_at(image, at + NUMBER_AT) as usize;
    }
    MAX_EVENTS
}

// The sense of rule r and its condition as one number.
pub fn sense_of(image: &[u8], r: usize) -> u64
    requires { (WellFormed image.now) × (r < rules_in image.now) }
    ensures { result ≡ code_of (book_of image.now) r }
{
    let at = BOOK_HEADER + RULE_SIZE * r;
    let sense = image[at + SENSE_AT];
    let condition = wire::u16_at(image, at + CONDITION_AT) as u64;
    if sense == SENSE_NONE {
        return 1;
    }
    if sense == SENSE_AS_WRITTEN {
        return 2 * condition + 2;
    }
    2 * condition + 3
}

// A number and whether the effect is to set, as one number.
pub fn side(n: usize, set: bool) -> usize
    requires { n ≤ max_marks }
    ensures { (result ≡ side n set) × (result < 2 * n + 2) }
{
    if set { 2 * n + 1 } else { 2 * n }
}

// The stage as a set, or every stage where it is none.
pub fn stages_at(turn: usize) -> Set
    ensures { number result ≡ stages_at turn }
{
    if turn < MAX_EVENTS {
        return wide::one(turn);
    }
    wide::all_below(MAX_EVENTS)
}

// ---- the senses of a group of rules: 0 for no rule, their sense, or 1 where they are mixed or a rule has no condition
pub fn twin(n: u64) -> u64
    ensures { result ≡ twin n }
{
    if n % 2 == 0 { n + 1 } else { n - 1 }
}

pub fn with_sense(senses: u64, sense: u64) -> u64
    ensures { result ≡ with_sense senses sense }
{
    if senses == 0 {
        return sense;
    }
    if senses == sense { senses } else { 1 }
}

// Whether some rule of the group has another sense than the one that keeps apart.
pub fn meets(senses: u64, apart: u64) -> bool
    ensures { result ≡ meets senses apart }
{
    (senses != 0) & (senses != apart)
}
