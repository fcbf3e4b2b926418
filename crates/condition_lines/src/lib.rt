// The listing's condition lines, one for each condition of a book, written into lent room.
#![tactic(auto)]

ghost use Rattle.std.specs.Prelude.{◌+◌, ◌*◌, ◌≤◌, length};
ghost use Rattle.paper.specs.Limits.{word_size};
ghost use Rattle.general.specs.Lists.{flat, packed};
ghost use Rattle.book.specs.Read.{words_from};
ghost use Rattle.general.specs.Writing.{Wrote};
ghost use Rattle.writing.specs.Writers.{Space};
ghost use Rattle.condition_lines.specs.Text.{word_text, condition_line};
ghost use Rattle.condition_lines.specs.Writers.{condition_line_at, ConditionsIn};

use book::Counts;
use book::reader::BookReader;
use paper::{AND, NOT, OR, WORD_SIZE};

// The three operators by name, a mark by its number.
fn word_text(room: &mut [u8], at: usize, word: u16) -> usize
    requires { Space room.old at (word_text word) }
    ensures { Wrote room.old at (word_text word) result room.new }
{
    match word {
        AND => writing::text(room, at, b" and"),
        OR => writing::text(room, at, b" or"),
        NOT => writing::text(room, at, b" not"),
        m => writing::named(room, at, b" ", m as u32),
    }
}

// So many words from the byte `from`.
fn words_text(room: &mut [u8], at: usize, image: &[u8], from: usize, count: u32) -> usize
    requires { (from + word_size * count ≤ length image.now) × Space room.old at (packed word_text (words_from image.now from count)) }
    ensures { Wrote room.old at (packed word_text (words_from image.now from count)) result room.new }
{
    let mut next = at;
    for i in 0..count {
        let word = wire::u16_at(image, from + WORD_SIZE * i as usize);
        next = word_text(room, next, word);
    }
    next
}

fn condition_line(
    room: &mut [u8],
    at: usize,
    image: &[u8],
    c: u32,
    from: usize,
    count: u32,
) -> usize
    requires { (from + word_size * count ≤ length image.now) × Space room.old at (condition_line c (words_from image.now from count)) }
    ensures { Wrote room.old at (condition_line c (words_from image.now from count)) result room.new }
{
    let a = writing::named(room, at, b"cond ", c);
    let b = writing::text(room, a, b":");
    let d = words_text(room, b, image, from, count);
    writing::text(room, d, b"\n")
}

pub fn condition_lines(room: &mut [u8], at: usize, image: &[u8], h: Counts) -> usize
    requires { ConditionsIn image.now h.rules h.conditions × Space room.old at (flat h.conditions (condition_line_at image.now h.rules h.conditions)) }
    ensures { Wrote room.old at (flat h.conditions (condition_line_at image.now h.rules h.conditions)) result room.new }
{
    let words = book::header::words_from(h.rules, h.conditions);
    let mut next = at;
    for c in 0..h.conditions {
        let text = BookReader { image, counts: h }.condition(c as usize);
        let from = words + WORD_SIZE * text.start as usize;
        next = condition_line(room, next, image, c, from, text.count);
    }
    next
}
