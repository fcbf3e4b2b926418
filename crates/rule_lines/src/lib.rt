// The listing's rule lines, one for each rule of a book, written into lent room.
#![tactic(auto)]

ghost use Rattle.std.specs.Prelude.{◌≤◌, length};
ghost use Rattle.book.specs.Image.{rule_place};
ghost use Rattle.general.specs.Lists.{flat};
ghost use Rattle.general.specs.Writing.{Wrote};
ghost use Rattle.writing.specs.Writers.{Space};
ghost use Rattle.rule_lines.specs.Text.{trigger_text, sense_text, effect_text, rule_line};
ghost use Rattle.rule_lines.specs.Writers.{rule_line_at};

use book::reader::BookReader;
use book::{Counts, Rule, Sense, Trigger};

// A derived book's rules wait for a completion or for nothing.
fn trigger_text(room: &mut [u8], at: usize, trigger: Trigger) -> usize
    requires { Space room.old at (trigger_text trigger) }
    ensures { Wrote room.old at (trigger_text trigger) result room.new }
{
    match trigger {
        Trigger::Completed(e) => writing::named(room, at, b" on ", e as u32),
        Trigger::None | Trigger::BecomeYes(_) | Trigger::BecomeNo(_) => at,
    }
}

fn sense_text(room: &mut [u8], at: usize, sense: Sense) -> usize
    requires { Space room.old at (sense_text sense) }
    ensures { Wrote room.old at (sense_text sense) result room.new }
{
    match sense {
        Sense::NoCondition => at,
        Sense::AsWritten(c) => writing::named(room, at, b" if ", c as u32),
        Sense::Negated(c) => writing::named(room, at, b" unless ", c as u32),
    }
}

fn effect_text(room: &mut [u8], at: usize, effect: bool, target: u16) -> usize
    requires { Space room.old at (effect_text effect target) }
    ensures { Wrote room.old at (effect_text effect target) result room.new }
{
    if effect {
        writing::named(room, at, b" set ", target as u32)
    } else {
        writing::named(room, at, b" clear ", target as u32)
    }
}

fn rule_line(room: &mut [u8], at: usize, i: u32, rule: Rule) -> usize
    requires { Space room.old at (rule_line i rule) }
    ensures { Wrote room.old at (rule_line i rule) result room.new }
{
    let a = writing::number(room, at, i);
    let b = trigger_text(room, a, rule.trigger);
    let c = sense_text(room, b, rule.sense);
    let d = effect_text(room, c, rule.effect, rule.target);
    writing::text(room, d, b"\n")
}

pub fn rule_lines(room: &mut [u8], at: usize, image: &[u8], h: Counts) -> usize
    requires { (rule_place h.rules ≤ length image.now) × Space room.old at (flat h.rules (rule_line_at image.now)) }
    ensures { Wrote room.old at (flat h.rules (rule_line_at image.now)) result room.new }
{
    let mut next = at;
    for i in 0..h.rules {
        let rule = BookReader { image, counts: h }.rule(i as usize);
        next = rule_line(room, next, i, rule);
    }
    next
}
