// Condition records, at their places in the image.
ghost use Rattle.std.specs.Prelude.{◌≡◌, ◌+◌, ◌*◌, ◌≤◌, length};
ghost use Rattle.paper.specs.Limits.{condition_size};
ghost use Rattle.book.specs.Image.{condition_place};
ghost use Rattle.book.specs.Reading.{span_from};

use crate::Span;
use crate::header::conditions_from;
use paper::CONDITION_SIZE;

// How many words: at this byte of the record, which begins with the first word's number.
pub const COUNT_AT: usize = 4;

// Condition c, after the rules.
pub fn condition_at(image: &[u8], rules: u32, c: usize) -> Span
    requires { condition_place rules c + condition_size ≤ length image.now }
    ensures { result ≡ span_from image.now (condition_place rules c) }
{
    let at = conditions_from(rules) + CONDITION_SIZE * c;
    Span {
        start: wire::u32_at(image, at),
        count: wire::u32_at(image, at + COUNT_AT),
    }
}
