// Which rules are written, as bits.
ghost use Rattle.std.specs.Prelude.{◌≡◌, ◌≤◌, ◌<◌};
ghost use Rattle.paper.specs.Limits.{max_rules};
ghost use Rattle.unwritten.specs.Words.{flagged, marked, unmarked, AllWritten, Onward};

use paper::MAX_RULES;

// Rule r is bit r % 64 of word r / 64: about 16 KiB.
pub const RULE_WORDS: usize = MAX_RULES / 64;

pub fn is_written(written: &[u64; RULE_WORDS], r: usize) -> bool
    requires { r < max_rules }
    ensures { result ≡ flagged written.now r }
{
    sets::member(written[r / 64], r % 64)
}

pub fn mark_written(written: &mut [u64; RULE_WORDS], r: usize)
    requires { r < max_rules }
    ensures { written.new ≡ marked written.old r }
{
    let word = written[r / 64];
    written[r / 64] = sets::join(word, sets::one(r % 64));
}

pub fn mark_unwritten(written: &mut [u64; RULE_WORDS], r: usize)
    requires { r < max_rules }
    ensures { written.new ≡ unmarked written.old r }
{
    let word = written[r / 64];
    written[r / 64] = sets::less(word, sets::one(r % 64));
}

// Every rule of a book of so many stands as written, and nothing past them does. Whatever the array held is gone.
pub fn write_all(written: &mut [u64; RULE_WORDS], rules: usize)
    requires { rules ≤ max_rules }
    ensures { AllWritten rules written.new }
{
    *written = [0; RULE_WORDS];
    let words = rules / 64;
    for w in 0..words {
        written[w] = sets::all_below(64);
    }
    if words < RULE_WORDS {
        written[words] = sets::all_below(rules % 64);
    }
}

// The next rule in the word of `at` that is not written, or the first of the next word: those between are written.
pub fn onward(written: &[u64; RULE_WORDS], at: usize) -> usize
    requires { at < max_rules }
    ensures { Onward written.now at result }
{
    let unwritten = sets::less(sets::all_below(64), written[at / 64]);
    let left = sets::less(unwritten, sets::all_below(at % 64 + 1));
    if left == 0 {
        return (at / 64 + 1) * 64;
    }
    at / 64 * 64 + sets::least(left) as usize
}
