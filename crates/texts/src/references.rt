// A set of marks, 64 to a word: what the texts of the conditions name, noted while they are read.
ghost use Rattle.std.specs.Prelude.{◌≡◌, [], ◌∷◌, length};
ghost use Rattle.book.specs.Marks.{mark_words};
ghost use Rattle.texts.specs.Noted.{Added};

use paper::MAX_MARKS;

// Mark m is bit m % 64 of word m / 64.
pub const MARK_WORDS: usize = MAX_MARKS / 64;

// The set takes in the mark that a word names. The words and, or, not lie above every mark.
#[tactic(auto, using(crate::proofs::Naming::mark_added))]
pub fn note(named: &mut [u64; MARK_WORDS], word: u16)
    requires { length named.old ≡ mark_words }
    ensures { Added named.old (word ∷ []) named.new }
{
    let mark = word as usize;
    if mark < MAX_MARKS {
        let others = named[mark / 64];
        named[mark / 64] = sets::join(others, sets::one(mark % 64));
    }
}
