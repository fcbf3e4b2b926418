// Which rules count for a stage: all but those that another stage's completion triggers.
ghost use Rattle.std.specs.Prelude.{◌≡◌, ◌<◌};
ghost use Rattle.book.specs.Image.{rules_in};
ghost use Rattle.book.specs.WellFormed.{WellFormed};
ghost use Rattle.order_theory.specs.Order.{counted_rules};
ghost use Rattle.rule_order.specs.Nets.{rules_of};

use book::rules::{NUMBER_AT, TRIGGER_COMPLETED};
use paper::{BOOK_HEADER, RULE_SIZE};

// Whether rule r counts. The stage need not be one that the book has: for one that it has not, no rule on completion counts.
pub fn is_counted(image: &[u8], r: usize, stage: u32) -> bool
    requires { (WellFormed image.now) × (r < rules_in image.now) }
    ensures { result ≡ (rules_of image.now stage).counts r }
{
    let at = BOOK_HEADER + RULE_SIZE * r;
    if image[at] != TRIGGER_COMPLETED {
        return true;
    }
    wire::u16_at(image, at + NUMBER_AT) as u32 == stage
}

// How many rules count: one pass over them.
pub fn counted_rules(image: &[u8], rules: usize, stage: u32) -> usize
    requires { (WellFormed image.now) × (rules ≡ rules_in image.now) }
    ensures { result ≡ counted_rules (rules_of image.now stage) }
{
    let mut n: usize = 0;
    for r in 0..rules {
        if is_counted(image, r, stage) {
            n += 1;
        }
    }
    n
}
