// The postfix evaluator: what a good text says of the marks as they stand.
ghost use Rattle.std.specs.Prelude.{◌≡◌, true, ◌+◌, ◌*◌, ◌≤◌, length};
ghost use Rattle.paper.specs.Limits.{max_marks, word_size};
ghost use Rattle.book.specs.Text.{holds, snap_of};
ghost use Rattle.book.specs.GoodTexts.{good};
ghost use Rattle.book.specs.Read.{words_from};

use paper::{MAX_MARKS, WORD_SIZE};

const LAST_MARK: u16 = (MAX_MARKS - 1) as u16;

// The text is `count` words from the byte `at`.
pub fn text_holds(image: &[u8], at: usize, count: usize, marks: &[bool; MAX_MARKS]) -> bool
    requires { (at + word_size * count ≤ length image.now) × (good max_marks (words_from image.now at count) ≡ true) }
    ensures { result ≡ holds (snap_of marks.now) (words_from image.now at count) }
{
    // One bit for each value, the top one lowest.
    let mut values: u32 = 0;
    for i in 0..count {
        let w = wire::u16_at(image, at + WORD_SIZE * i);
        values = match w {
            0..=LAST_MARK => (values << 1) | (marks[w as usize] as u32),
            paper::AND => (values >> 1) & (values | !1),
            paper::OR => (values >> 1) | (values & 1),
            // A good text has no other word.
            _ => values ^ 1,
        };
    }
    values == 1
}
