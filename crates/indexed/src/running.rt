// One completion through the index: every rule of the stage's order has its turn.
ghost use Rattle.std.specs.Prelude.{◌≡◌, ◌+◌, ◌≤◌, ◌<◌, length};
ghost use Rattle.paper.specs.Limits.{index_rule};
ghost use Rattle.wire.specs.Wire.{u32_at};
ghost use Rattle.book.specs.Image.{book_of};
ghost use Rattle.book.specs.WellRead.{Opened};
ghost use Rattle.runner.specs.Completing.{through};
ghost use Rattle.index.specs.Index.{order_of, index_image, NoLoops};

use book::{Counts, Snapshot};
use paper::{INDEX_HEADER, INDEX_RULE, INDEX_STAGE, MAX_MARKS};
use runner::running::turn;

// The rule that an order has at a place of the index.
fn entry_at(index: &[u8], at: usize) -> usize
    requires { at + index_rule ≤ length index.now }
    ensures { result ≡ u32_at index.now at }
{
    wire::u32_at(index, at) as usize
}

// What the turns leave: the snapshot, and how many rules had one.
#[derive(Clone, Copy)]
pub struct Turned {
    pub snapshot: Snapshot,
    pub evaluated: u32,
}

// The turns of a completion; `start` has the marks at the start of it.
pub fn go_through_index(
    book: &[u8],
    counts: Counts,
    index: &[u8],
    start: &[bool; MAX_MARKS],
    snapshot: Snapshot,
    stage: u32,
) -> Turned
    requires { (Opened book.now counts) × (NoLoops (book_of book.now)) × (index.now ≡ index_image (book_of book.now)) × (stage < counts.stages) }
    ensures { (result.snapshot.marks ≡ through book.now start.now stage snapshot.marks (order_of (book_of book.now) stage))
        × (result.evaluated ≡ length (order_of (book_of book.now) stage)) }
{
    let entry = INDEX_HEADER + INDEX_STAGE * stage as usize;
    let at = wire::u32_at(index, entry) as usize;
    let many = wire::u32_at(index, entry + 4) as usize;
    let mut held = snapshot;
    let mut evaluated = 0;
    for j in 0..many {
        let r = entry_at(index, at + INDEX_RULE * j);
        turn(book, counts, r, stage, start, &mut held);
        evaluated += 1;
    }
    Turned {
        snapshot: held,
        evaluated,
    }
}
