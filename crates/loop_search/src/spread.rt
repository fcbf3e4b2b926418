// What 64 marks, the sources, lead to. It is spread over the rules that count for a stage, from the marks that a rule refers to on to its
// target, until a pass over them adds nothing.
ghost use Rattle.std.specs.Prelude.{◌≡◌, ◌+◌, ◌≤◌, ◌<◌, length};
ghost use Rattle.paper.specs.Limits.{max_marks, max_conditions};
ghost use Rattle.book.specs.Image.{rules_in};
ghost use Rattle.book.specs.Marks.{word_bits};
ghost use Rattle.book.specs.WellFormed.{WellFormed};
ghost use Rattle.book.specs.WellRead.{Opened};
ghost use Rattle.rule_order.specs.Nets.{rules_of};
ghost use Rattle.loop_search.specs.Spreading.{Begun, Sources, AskedAll, from_trigger, from_condition, carried, Carried, Passed, Grown, Settled};

use book::Counts;
use book::rules::{CONDITION_AT, NUMBER_AT, SENSE_AS_WRITTEN, SENSE_AT, TRIGGER_BECOME_YES};
use paper::{BOOK_HEADER, MAX_CONDITIONS, MAX_MARKS, RULE_SIZE};
use rule_order::counted::is_counted;
use unwritten::waiting::target_of;

// For each mark a word whose digits say from which sources it is reached, and for each condition one that says from which its text is.
#[derive(Drop)]
pub struct Reach {
    pub reached: [u64; MAX_MARKS],
    pub asked: [u64; MAX_CONDITIONS],
}

impl Reach {
    // Source i is the mark base + i, and is reached from itself. No text was asked. Whatever the words held is gone.
    pub fn begin(&mut self, base: usize)
        requires { base + word_bits ≤ max_marks }
        ensures { (Begun base self.new.reached) × (length self.new.asked ≡ max_conditions) }
    {
        self.reached = [0; MAX_MARKS];
        self.asked = [0; MAX_CONDITIONS];
        for i in 0..64 {
            self.reached[base + i] = sets::one(i);
        }
    }

    // What reaches the mark that rule r waits for.
    #[tactic(auto, unfolding(crate::specs::Spreading::from_trigger))]
    fn from_trigger(&self, image: &[u8], r: usize) -> u64
        requires { (WellFormed image.now) × (r < rules_in image.now) }
        ensures { result ≡ from_trigger image.now self.now.reached r }
    {
        let at = BOOK_HEADER + RULE_SIZE * r;
        if image[at] < TRIGGER_BECOME_YES {
            return 0;
        }
        let m = wire::u16_at(image, at + NUMBER_AT) as usize;
        self.reached[m]
    }

    // What its condition was asked for.
    #[tactic(auto, unfolding(crate::specs::Spreading::from_condition))]
    fn from_condition(&self, image: &[u8], r: usize) -> u64
        requires { (WellFormed image.now) × (r < rules_in image.now) }
        ensures { result ≡ from_condition image.now self.now.asked r }
    {
        let at = BOOK_HEADER + RULE_SIZE * r;
        if image[at + SENSE_AT] < SENSE_AS_WRITTEN {
            return 0;
        }
        let c = wire::u16_at(image, at + CONDITION_AT) as usize;
        self.asked[c]
    }

    // What rule r carries on to its target.
    pub fn from_rule(&self, image: &[u8], r: usize) -> u64
        requires { (WellFormed image.now) × (r < rules_in image.now) }
        ensures { result ≡ carried image.now self.now.reached self.now.asked r }
    {
        sets::join(self.from_trigger(image, r), self.from_condition(image, r))
    }

    // The target of rule r takes in what the rule carries: whether something is new to it.
    fn carry(&mut self, image: &[u8], r: usize) -> bool
        requires { (WellFormed image.now) × (r < rules_in image.now) }
        ensures carried { Carried image.now self.old.reached self.old.asked r self.new.reached result }
        ensures kept { self.new.asked ≡ self.old.asked }
    {
        let from = self.from_rule(image, r);
        let t = target_of(image, r);
        let had = self.reached[t];
        if sets::less(from, had) == 0 {
            return false;
        }
        self.reached[t] = sets::join(had, from);
        true
    }

    // One pass over the rules: whether something was new to some target.
    fn pass_rules(&mut self, image: &[u8], rules: usize, stage: u32) -> bool
        requires { (WellFormed image.now) × (rules ≡ rules_in image.now) × (Sources self.old.reached) × (AskedAll image.now self.old.reached self.old.asked) }
        ensures passed { Passed image.now stage self.old.reached self.old.asked self.new.reached result }
        ensures kept { self.new.asked ≡ self.old.asked }
    {
        let mut more = false;
        for r in 0..rules {
            if is_counted(image, r, stage) {
                more |= self.carry(image, r);
            }
        }
        more
    }

    // Passes over the texts and the rules until one adds nothing. Each but the last adds a digit to some word.
    pub fn spread(&mut self, image: &[u8], counts: Counts, stage: u32)
        requires { (Opened image.now counts) × (Sources self.old.reached) × (length self.old.asked ≡ max_conditions) }
        ensures { (Grown (rules_of image.now stage) self.old.reached self.new.reached) × (Settled image.now stage self.new.reached self.new.asked) }
    {
        let mut more = true;
        while more {
            self.ask_texts(image, counts);
            more = self.pass_rules(image, counts.rules as usize, stage);
        }
    }
}
