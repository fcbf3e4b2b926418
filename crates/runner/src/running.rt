// One completion: every rule of the order has its turn.
ghost use Rattle.std.specs.Prelude.{◌≡◌, ℕ, ◌<◌, length, get_or};
ghost use Rattle.book.specs.Image.{rules_in};
ghost use Rattle.book.specs.WellRead.{Opened};
ghost use Rattle.runner.specs.Completing.{turned, through};

use book::applying::{alters, apply};
use book::reader::rule_in;
use book::{Counts, Snapshot};
use firing::rule_fires;
use paper::MAX_MARKS;

// The turn of rule r; `start` has the marks at the start of the completion. A rule whose target has its value already cannot alter it, so its
// condition is not evaluated.
pub fn turn(
    book: &[u8],
    counts: Counts,
    r: usize,
    stage: u32,
    start: &[bool; MAX_MARKS],
    held: &mut Snapshot,
)
    requires { (Opened book.now counts) × (r < rules_in book.now) }
    ensures { held.new.marks ≡ turned book.now start.now stage held.old.marks r }
{
    let rule = rule_in(book, counts, r);
    if alters(&held.marks, rule) && rule_fires(book, counts, rule, stage, start, &held.marks) {
        apply(held, rule);
    }
}

// The snapshot after the turns.
pub fn go_through(
    book: &[u8],
    counts: Counts,
    order: &[u32],
    snapshot: Snapshot,
    stage: u32,
) -> Snapshot
    requires { (Opened book.now counts) × ((j : ℕ) → j < length order.now → get_or order.now j 0 < rules_in book.now) }
    ensures { result.marks ≡ through book.now snapshot.marks stage snapshot.marks order.now }
{
    let mut held = snapshot;
    for entry in order {
        turn(
            book,
            counts,
            *entry as usize,
            stage,
            &snapshot.marks,
            &mut held,
        );
    }
    held
}
