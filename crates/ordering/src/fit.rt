// Whether a given order is fit: one pass over its entries.
ghost use Rattle.std.specs.Prelude.{◌≡◌, ◌<◌, length, get_or};
ghost use Rattle.book.specs.Image.{rules_in};
ghost use Rattle.book.specs.WellFormed.{WellFormed};
ghost use Rattle.order_theory.specs.Pass.{fit_pass};
ghost use Rattle.rule_order.specs.Nets.{rules_of};

use crate::ready::is_ready;
use unwritten::Scratch;
use unwritten::waiting::{Span, count_targets, target_of};
use unwritten::written::mark_written;

// The rule that an order has at j.
pub fn entry_of(order: &[u32], j: usize) -> usize
    requires { j < length order.now }
    ensures { result ≡ get_or order.now j 0 }
{
    order[j] as usize
}

// Each entry is a counted rule that is ready where those before it are written, and there are as many as there are counted rules.
// One pass over the rules and one over the order. The scratch is lent, whatever it holds.
pub fn order_fits(
    image: &[u8],
    rules: usize,
    stage: u32,
    scratch: &mut Scratch,
    order: &[u32],
) -> bool
    requires { (WellFormed image.now) × (rules ≡ rules_in image.now) }
    ensures { result ≡ fit_pass (rules_of image.now stage) order.now }
{
    let counted = count_targets(image, rules, Span::all(rules), stage, scratch);
    if order.len() != counted {
        return false;
    }
    for j in 0..counted {
        let r = entry_of(order, j);
        if rules <= r {
            return false;
        }
        if !is_ready(
            image,
            r,
            &scratch.waits,
            &scratch.written,
            &mut scratch.free,
        ) {
            return false;
        }
        mark_written(&mut scratch.written, r);
        scratch.strike(target_of(image, r));
    }
    true
}
