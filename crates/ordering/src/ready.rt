// Whether a rule may stand next.
ghost use Rattle.std.specs.Prelude.{◌≡◌, ◌<◌};
ghost use Rattle.book.specs.Image.{rules_in, book_of};
ghost use Rattle.book.specs.WellFormed.{WellFormed};
ghost use Rattle.rule_order.specs.Freed.{Freed};
ghost use Rattle.ordering.specs.Ready.{may_stand};
ghost use Rattle.unwritten.specs.Words.{flagged};

use paper::MAX_CONDITIONS;
use rule_order::references::mark_referred;
use texts::references::MARK_WORDS;
use unwritten::written::{RULE_WORDS, is_written};

// Rule r is unwritten, and refers to no mark that waits: all its predecessors are written.
pub fn is_ready(
    image: &[u8],
    r: usize,
    waits: &[u64; MARK_WORDS],
    written: &[u64; RULE_WORDS],
    free: &mut [u32; MAX_CONDITIONS],
) -> bool
    requires { (WellFormed image.now) × (r < rules_in image.now) × (Freed image.now waits.now free.old) }
    ensures value { result ≡ may_stand (book_of image.now) (flagged written.now) waits.now r }
    ensures freed { Freed image.now waits.now free.new }
{
    if is_written(written, r) {
        return false;
    }
    mark_referred(image, r, free, waits).is_none()
}
