// Rule records: ten bytes judged, and decoded.
ghost use Rattle.std.specs.Prelude.{◌≡◌, not, ◌+◌, ◌*◌, ◌≤◌, length};
ghost use Rattle.paper.specs.Limits.{book_header, rule_size};
ghost use Rattle.general.specs.Below.{first};
ghost use Rattle.book.specs.Image.{rule_place, trigger_from, sense_from, rule_from};
ghost use Rattle.book.specs.Judging.{trigger_fits, sense_fits, rule_fits};

use crate::{Rule, Sense, Trigger};
use paper::{BOOK_HEADER, RULE_SIZE};

// ---- the fields of a rule, which begins with its trigger kind, at these bytes of the record
pub const SENSE_AT: usize = 1;

pub const EFFECT_AT: usize = 2;

pub const SPARE_AT: usize = 3;

// The stage or the mark that the trigger names.
pub const NUMBER_AT: usize = 4;

pub const CONDITION_AT: usize = 6;

pub const TARGET_AT: usize = 8;

// ---- trigger kinds: those from BECOME_YES on wait for a mark
pub const TRIGGER_NONE: u8 = 0;

pub const TRIGGER_COMPLETED: u8 = 1;

pub const TRIGGER_BECOME_YES: u8 = 2;

pub const TRIGGER_BECOME_NO: u8 = 3;

// ---- senses: those from AS_WRITTEN on ask a condition
pub const SENSE_NONE: u8 = 0;

pub const SENSE_AS_WRITTEN: u8 = 1;

pub const SENSE_NEGATED: u8 = 2;

// ---- effects
pub const EFFECT_CLEAR: u8 = 0;

pub const EFFECT_SET: u8 = 1;

#[tactic(auto, unfolding(crate::specs::Judging::trigger_fits))]
fn trigger_fits(kind: u8, n: u16, stages: u32, marks: u32) -> bool
    ensures { result ≡ trigger_fits stages marks kind n }
{
    match kind {
        TRIGGER_NONE => n == 0,
        TRIGGER_COMPLETED => (n as u32) < stages,
        TRIGGER_BECOME_YES | TRIGGER_BECOME_NO => (n as u32) < marks,
        _ => false,
    }
}

#[tactic(auto, unfolding(crate::specs::Judging::sense_fits))]
fn sense_fits(sense: u8, c: u16, conditions: u32) -> bool
    ensures { result ≡ sense_fits conditions sense c }
{
    match sense {
        SENSE_NONE => c == 0,
        SENSE_AS_WRITTEN | SENSE_NEGATED => (c as u32) < conditions,
        _ => false,
    }
}

#[tactic(auto, unfolding(crate::specs::Judging::rule_fits))]
fn rule_fits(image: &[u8], at: usize, stages: u32, marks: u32, conditions: u32) -> bool
    requires { at + rule_size ≤ length image.now }
    ensures { result ≡ rule_fits stages marks conditions image.now at }
{
    let number = wire::u16_at(image, at + NUMBER_AT);
    let condition = wire::u16_at(image, at + CONDITION_AT);
    let target = wire::u16_at(image, at + TARGET_AT) as u32;
    trigger_fits(image[at], number, stages, marks)
        && sense_fits(image[at + SENSE_AT], condition, conditions)
        && image[at + EFFECT_AT] <= EFFECT_SET
        && image[at + SPARE_AT] == 0
        && target < marks
}

// The lowest rule that is bad, or the number of rules.
pub fn first_bad_rule(image: &[u8], rules: u32, stages: u32, marks: u32, conditions: u32) -> u32
    requires { book_header + rule_size * rules ≤ length image.now }
    ensures { result ≡ first rules (λ k. not (rule_fits stages marks conditions image.now (rule_place k))) }
{
    for r in 0..rules {
        let at = BOOK_HEADER + RULE_SIZE * (r as usize);
        if !rule_fits(image, at, stages, marks, conditions) {
            return r;
        }
    }
    rules
}

#[tactic(auto, unfolding(crate::specs::Image::trigger_from))]
fn trigger_of(kind: u8, n: u16) -> Trigger
    ensures { result ≡ trigger_from kind n }
{
    match kind {
        TRIGGER_NONE => Trigger::None,
        TRIGGER_COMPLETED => Trigger::Completed(n),
        TRIGGER_BECOME_YES => Trigger::BecomeYes(n),
        _ => Trigger::BecomeNo(n),
    }
}

#[tactic(auto, unfolding(crate::specs::Image::sense_from))]
fn sense_of(sense: u8, c: u16) -> Sense
    ensures { result ≡ sense_from sense c }
{
    match sense {
        SENSE_NONE => Sense::NoCondition,
        SENSE_AS_WRITTEN => Sense::AsWritten(c),
        _ => Sense::Negated(c),
    }
}

#[tactic(auto, unfolding(crate::specs::Image::rule_from))]
pub fn rule_at(image: &[u8], i: usize) -> Rule
    requires { rule_place i + rule_size ≤ length image.now }
    ensures { result ≡ rule_from image.now (rule_place i) }
{
    let at = BOOK_HEADER + RULE_SIZE * i;
    let trigger = trigger_of(image[at], wire::u16_at(image, at + NUMBER_AT));
    let sense = sense_of(image[at + SENSE_AT], wire::u16_at(image, at + CONDITION_AT));
    Rule {
        trigger,
        sense,
        effect: image[at + EFFECT_AT] == EFFECT_SET,
        target: wire::u16_at(image, at + TARGET_AT),
    }
}
