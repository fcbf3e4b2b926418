// From which sources the marks of a text are reached: the word of each condition.
ghost use Rattle.std.specs.Prelude.{◌≡◌, ◌+◌, ◌*◌, ◌≤◌, ◌<◌, length, get_or};
ghost use Rattle.paper.specs.Limits.{max_marks, max_conditions, word_size};
ghost use Rattle.book.specs.Book.{text_of};
ghost use Rattle.book.specs.Image.{conditions_in, book_of};
ghost use Rattle.book.specs.Read.{words_from};
ghost use Rattle.book.specs.WellRead.{Opened};
ghost use Rattle.loop_search.specs.Spreading.{Asked, AskedAll};

use crate::spread::Reach;
use book::Counts;
use book::conditions::condition_at;
use book::header::words_from;
use paper::{MAX_MARKS, WORD_SIZE};

// What reaches the mark that a word is. The words and, or, not lie above every mark.
fn sources_of(reached: &[u64; MAX_MARKS], word: u16) -> u64
    requires { length reached.now ≡ max_marks }
    ensures { result ≡ get_or reached.now word 0 }
{
    let m = word as usize;
    if m < MAX_MARKS { reached[m] } else { 0 }
}

// What reaches some mark of the text of so many words from the byte `at`.
fn ask_words(image: &[u8], at: usize, count: usize, reached: &[u64; MAX_MARKS]) -> u64
    requires { (at + word_size * count ≤ length image.now) × (length reached.now ≡ max_marks) }
    ensures { Asked (words_from image.now at count) reached.now result }
{
    let mut all = 0;
    for i in 0..count {
        let word = wire::u16_at(image, at + WORD_SIZE * i);
        all = sets::join(all, sources_of(reached, word));
    }
    all
}

// What reaches some mark of the text of condition c.
fn ask_text(image: &[u8], counts: Counts, c: usize, reached: &[u64; MAX_MARKS]) -> u64
    requires { (Opened image.now counts) × (c < conditions_in image.now) × (length reached.now ≡ max_marks) }
    ensures { Asked (text_of (book_of image.now) c) reached.now result }
{
    let span = condition_at(image, counts.rules, c);
    let from = words_from(counts.rules, counts.conditions);
    ask_words(
        image,
        from + WORD_SIZE * (span.start as usize),
        span.count as usize,
        reached,
    )
}

impl Reach {
    // One pass over the texts.
    pub fn ask_texts(&mut self, image: &[u8], counts: Counts)
        requires { (Opened image.now counts) × (length self.old.reached ≡ max_marks) × (length self.old.asked ≡ max_conditions) }
        ensures asked { AskedAll image.now self.new.reached self.new.asked }
        ensures kept { self.new.reached ≡ self.old.reached }
    {
        let conditions = counts.conditions as usize;
        for c in 0..conditions {
            self.asked[c] = ask_text(image, counts, c, &self.reached);
        }
    }
}
