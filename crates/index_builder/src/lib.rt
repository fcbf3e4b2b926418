// Building the index of a book.
#![tactic(auto)]

ghost use Rattle.std.specs.Prelude.{◌≡◌, length};
ghost use Rattle.paper.specs.Refusals.{answered};
ghost use Rattle.index_builder.specs.Building.{building, built_room};

use index::sizes::Sizes;
use index::write::put_index;
use judge::judge_book;
use paper::{Answer, Refusal, answered};
use unwritten::Scratch;

// 20 to 26 and 35, or nothing and the index in the room.
fn build_in(book: &[u8], scratch: &mut Scratch, room: &mut [u8]) -> Result<(), Refusal>
    ensures answer { answered result ≡ building book.now (length room.old) }
    ensures room { room.new ≡ built_room book.now room.old }
{
    let counts = judge_book(book, scratch)?;
    let sizes = Sizes::of(book, counts.rules as usize);
    let need = sizes.index_size(counts.stages as usize);
    if room.len() < need {
        return Err(Refusal::IndexRoom(need as u32));
    }
    put_index(book, counts, &sizes, scratch, room);
    Ok(())
}

// The index of a book at the start of the room: 20 to 26 and 35, or 0 and the image.
// Cost: the passes of `judge::judge_book` (`judge::check` says which), two over the rules for how many count for each stage and among which they are, and two
// over the rules and one over the texts for whether orders rise. Where they do, as in a derived book, a pass over a stage's rules lists those that count;
// elsewhere it is that pass and the scan of its running order, which reads each text once. Where a stage's rules stand together and those that count for every
// stage behind all others, as in a derived book, no other rule is asked. Stack: 24 KiB for the scratch that the book is judged in, 4 in the search for clashes,
// 16 in that for loops, 8 in the scan, and three tables of 1 KiB.
pub fn build(book: &[u8], room: &mut [u8]) -> Answer
    ensures { (result ≡ building book.now (length room.old)) × (room.new ≡ built_room book.now room.old) }
{
    let mut scratch = Scratch::empty();
    answered(build_in(book, &mut scratch, room))
}
