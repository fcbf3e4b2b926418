// How many rules count for each stage, and how many bytes the index takes.
ghost use Rattle.std.specs.Prelude.{◌≡◌, ◌≤◌, ◌<◌};
ghost use Rattle.paper.specs.Limits.{max_events, max_rules};
ghost use Rattle.book.specs.Image.{rules_in};
ghost use Rattle.book.specs.WellFormed.{WellFormed};
ghost use Rattle.index.specs.Sizes.{order_size, start_from, Sized, StageCounts};

use book::rules::{NUMBER_AT, TRIGGER_COMPLETED};
use paper::{BOOK_HEADER, INDEX_HEADER, INDEX_RULE, INDEX_STAGE, MAX_EVENTS, RULE_SIZE};

// How many rules wait for the completion of each stage, and how many for none, which count for every stage.
#[derive(Drop)]
pub struct Sizes {
    pub stages: [u32; MAX_EVENTS],
    pub common: usize,
}

impl Sizes {
    // One pass over the rules.
    pub fn of(image: &[u8], rules: usize) -> Sizes
        requires { (WellFormed image.now) × (rules ≡ rules_in image.now) }
        ensures { StageCounts image.now result.stages result.common }
    {
        let mut sizes = Sizes {
            stages: [0; MAX_EVENTS],
            common: 0,
        };
        for r in 0..rules {
            let at = BOOK_HEADER + RULE_SIZE * r;
            if image[at] != TRIGGER_COMPLETED {
                sizes.common += 1;
            } else {
                let t = wire::u16_at(image, at + NUMBER_AT) as usize;
                sizes.stages[t] += 1;
            }
        }
        sizes
    }

    // How many rules the order of a stage has.
    pub fn order_size(&self, stage: usize) -> usize
        requires { (stage < max_events) × (order_size self.now.stages self.now.common stage ≤ max_rules) }
        ensures { result ≡ order_size self.now.stages self.now.common stage }
    {
        self.common + self.stages[stage] as usize
    }

    // The bytes of the index of a book of so many stages.
    pub fn index_size(&self, stages: usize) -> usize
        requires { Sized stages self.now.stages self.now.common }
        ensures { result ≡ start_from stages self.now.stages self.now.common stages }
    {
        let mut sum = 0;
        for stage in 0..stages {
            sum += self.order_size(stage);
        }
        INDEX_HEADER + INDEX_STAGE * stages + INDEX_RULE * sum
    }
}
