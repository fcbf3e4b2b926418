// A reader that keeps the borrowed image beside its header counts.
ghost use Rattle.std.specs.Prelude.{◌≡◌, ◌+◌, ◌≤◌, length};
ghost use Rattle.paper.specs.Limits.{rule_size, condition_size};
ghost use Rattle.book.specs.Image.{rule_place, condition_place, rule_from};
ghost use Rattle.book.specs.Reading.{reader_of, span_from};

use crate::conditions::condition_at;
use crate::rules::rule_at;
use crate::{Counts, Rule, Span};

#[derive(Clone, Copy)]
pub struct BookReader<'a> {
    pub image: &'a [u8],
    pub counts: Counts,
}

pub fn open<'a>(image: &'a [u8], counts: Counts) -> BookReader<'a>
    ensures { result ≡ reader_of image.entry counts }
{
    BookReader { image, counts }
}

impl<'a> BookReader<'a> {
    pub fn rule(self, i: usize) -> Rule
        requires { rule_place i + rule_size ≤ length self.image.now }
        ensures { result ≡ rule_from self.entry.image.now (rule_place i) }
    {
        rule_at(self.image, i)
    }

    pub fn condition(self, c: usize) -> Span
        requires { condition_place self.counts.rules c + condition_size ≤ length self.image.now }
        ensures { result ≡ span_from self.entry.image.now (condition_place self.entry.counts.rules c) }
    {
        condition_at(self.image, self.counts.rules, c)
    }
}

// With plain parameters: whoever calls these has no reader at hand.
pub fn rule_in(image: &[u8], counts: Counts, i: usize) -> Rule
    requires { rule_place i + rule_size ≤ length image.now }
    ensures { result ≡ rule_from image.now (rule_place i) }
{
    open(image, counts).rule(i)
}

pub fn condition_in(image: &[u8], counts: Counts, c: usize) -> Span
    requires { condition_place counts.rules c + condition_size ≤ length image.now }
    ensures { result ≡ span_from image.now (condition_place counts.rules c) }
{
    open(image, counts).condition(c)
}
