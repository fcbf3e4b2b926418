// Among which rules those that count for a stage are: for all stages by one pass over the rules.
ghost use Rattle.std.specs.Prelude.{◌≡◌, ◌<◌, get_or};
ghost use Rattle.paper.specs.Limits.{max_events};
ghost use Rattle.book.specs.Image.{rules_in};
ghost use Rattle.book.specs.WellFormed.{WellFormed};
ghost use Rattle.index.specs.Spans.{places, place_of, Bounded, Spans, Covers};

use book::rules::{NUMBER_AT, TRIGGER_COMPLETED};
use paper::{BOOK_HEADER, MAX_EVENTS, RULE_SIZE};
use unwritten::waiting::Span;

// One for each stage, and one for the rules that wait for no completion, which count for every stage.
const PLACES: usize = MAX_EVENTS + 1;

// The stage whose completion rule r waits for, or the place behind the stages.
fn place_of(image: &[u8], r: usize) -> usize
    requires { (WellFormed image.now) × (r < rules_in image.now) }
    ensures { (result ≡ place_of image.now r) × (result < places) }
{
    let at = BOOK_HEADER + RULE_SIZE * r;
    if image[at] != TRIGGER_COMPLETED {
        return MAX_EVENTS;
    }
    wire::u16_at(image, at + NUMBER_AT) as usize
}

// For each place its lowest rule, and how many rules there are up to its highest: all of them and none where it has no rule.
#[derive(Drop)]
pub struct Places {
    pub low: [u32; PLACES],
    pub high: [u32; PLACES],
}

impl Places {
    // One pass over the rules.
    pub fn of(image: &[u8], rules: usize) -> Places
        requires { (WellFormed image.now) × (rules ≡ rules_in image.now) }
        ensures { Spans image.now rules rules result.low result.high }
    {
        let mut places = Places {
            low: [rules as u32; PLACES],
            high: [0; PLACES],
        };
        for r in 0..rules {
            let p = place_of(image, r);
            places.low[p] = places.low[p].min(r as u32);
            places.high[p] = r as u32 + 1;
        }
        places
    }

    // The rules that wait for the stage's completion and then those that wait for none, as a derived book has them; or, where these do not all
    // come behind those, one span with both.
    pub fn span(&self, rules: usize, stage: usize) -> Span
        requires { (stage < max_events) × (Bounded rules self.now.low self.now.high) }
        ensures { Covers (get_or self.now.low stage 0) (get_or self.now.high stage 0) (get_or self.now.low max_events 0) (get_or self.now.high max_events 0)
            rules result.from result.to result.again result.end }
    {
        let first = self.low[stage];
        let last = self.high[stage];
        let common = self.low[MAX_EVENTS];
        let end = self.high[MAX_EVENTS];
        if last <= common {
            return Span {
                from: first.min(last) as usize,
                to: last as usize,
                again: common as usize,
                end: common.max(end) as usize,
            };
        }
        Span {
            from: first.min(common) as usize,
            to: last.max(end) as usize,
            again: rules,
            end: rules,
        }
    }
}
