// The entries of an order that rises: the counted rules upwards, so an index is compared without making orders.
ghost use Rattle.std.specs.Prelude.{◌≡◌, ◌&&◌, ◌+◌, ◌*◌, ◌≤◌, leb, ltb, length};
ghost use Rattle.paper.specs.Limits.{index_rule};
ghost use Rattle.order_theory.specs.Rising.{rises};
ghost use Rattle.book.specs.Image.{rules_in};
ghost use Rattle.book.specs.WellFormed.{WellFormed};
ghost use Rattle.rule_order.specs.Nets.{rules_of};
ghost use Rattle.index_fit.specs.Entries.{entries_at};

use paper::INDEX_RULE;
use rule_order::counted::is_counted;

// Whether r is a rule that counts for the stage, and none below `from`.
fn entry_rises(image: &[u8], rules: usize, stage: u32, from: usize, r: usize) -> bool
    requires { (WellFormed image.now) × (rules ≡ rules_in image.now) }
    ensures { result ≡ (leb from r && (ltb r (rules_of image.now stage).count && (rules_of image.now stage).counts r)) }
{
    if r < from {
        return false;
    }
    if rules <= r {
        return false;
    }
    is_counted(image, r, stage)
}

// Whether the next `counted` rules of the index rise and count for the stage: then they are its order.
pub fn entries_rise(
    image: &[u8],
    rules: usize,
    stage: u32,
    counted: usize,
    index: &[u8],
    at: usize,
) -> bool
    requires { (WellFormed image.now) × (rules ≡ rules_in image.now) × (at + index_rule * counted ≤ length index.now) }
    ensures { result ≡ rises (rules_of image.now stage) 0 (entries_at index.now at counted) }
{
    let mut next = at;
    let mut from = 0;
    for j in 0..counted {
        let r = wire::u32_at(index, next) as usize;
        if !entry_rises(image, rules, stage, from, r) {
            return false;
        }
        from = r + 1;
        next += INDEX_RULE;
    }
    true
}
