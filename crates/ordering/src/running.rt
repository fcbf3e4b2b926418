// The running order of the rules that count for a stage.
ghost use Rattle.std.specs.Prelude.{◌≡◌, ◌↔◌, true};
ghost use Rattle.book.specs.Image.{rules_in};
ghost use Rattle.book.specs.WellFormed.{WellFormed};
ghost use Rattle.order_theory.specs.Order.{NoLoop, counted_rules};
ghost use Rattle.rule_order.specs.Nets.{rules_of};
ghost use Rattle.ordering.specs.Scanning.{ordered_room};

use crate::scan::{Ranges, Scan, next_rule};
use unwritten::Scratch;
use unwritten::waiting::{Span, count_targets};

// How many rules count: the order lists them all, since there is no loop. It stands in the room's first entries, unless the room is too
// short; what it does not take stays. One pass over the rules, and the scan. The scratch is lent, whatever it holds.
pub fn running_order(
    image: &[u8],
    rules: usize,
    stage: u32,
    scratch: &mut Scratch,
    room: &mut [u32],
) -> usize
    requires { (WellFormed image.now) × (rules ≡ rules_in image.now) × (NoLoop (rules_of image.now stage)) }
    ensures { (result ≡ counted_rules (rules_of image.now stage)) × (room.new ≡ ordered_room (rules_of image.now stage) room.old) }
{
    let counted = count_targets(image, rules, Span::all(rules), stage, scratch);
    if room.len() < counted {
        return counted;
    }
    let mut ranges = Ranges::empty();
    let mut scan = Scan::start();
    for j in 0..counted {
        let Some(next) = next_rule(image, rules, scan, scratch, &mut ranges) else {
            unreachable!()
        };
        scan = next;
        room[j] = scan.rule as u32;
    }
    counted
}

// Whether the running order of the rules that count for a stage lists them all: there is no loop exactly then. As `running_order`, but
// the order is not kept, and where no rule is ready the scan ends.
pub fn gets_through(image: &[u8], rules: usize, stage: u32, scratch: &mut Scratch) -> bool
    requires { (WellFormed image.now) × (rules ≡ rules_in image.now) }
    ensures { (result ≡ true) ↔ NoLoop (rules_of image.now stage) }
{
    let counted = count_targets(image, rules, Span::all(rules), stage, scratch);
    let mut ranges = Ranges::empty();
    let mut scan = Scan::start();
    for _ in 0..counted {
        match next_rule(image, rules, scan, scratch, &mut ranges) {
            Some(next) => scan = next,
            None => return false,
        }
    }
    true
}
