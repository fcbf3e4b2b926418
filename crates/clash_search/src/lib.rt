// The lowest pair of rules that clash: the lowest rule that clashes with some rule, and the lowest of those that it clashes with.
#![tactic(auto)]

ghost use Rattle.std.specs.Prelude.{◌≡◌, ◌-◌, ◌≤◌, ◌<◌, min, length};
ghost use Rattle.book.specs.Book.{rule_of};
ghost use Rattle.book.specs.Image.{rules_in, marks_in, book_of};
ghost use Rattle.book.specs.WellFormed.{WellFormed};
ghost use Rattle.clashes.specs.Clash.{clash};
ghost use Rattle.clashes.specs.Pairs.{clash_first, clash_second};
ghost use Rattle.clashes.specs.Groups.{clash_round, clash_work, Found};

use clashes::{ROUND, ROUND_WORDS, lowest, sum_up};
use paper::MAX_EVENTS;
use senses::{sense_of, sets_it, side, target_of, turn_of, twin};

// Two rules, the lower one first. Where no rules clash both are the number of rules.
#[derive(Clone, Copy)]
pub struct Pair {
    pub first: usize,
    pub second: usize,
}

fn clash(image: &[u8], p: usize, q: usize) -> bool
    requires { (WellFormed image.now) × (p < rules_in image.now) × (q < rules_in image.now) }
    ensures { result ≡ clash (rule_of (book_of image.now) p) (rule_of (book_of image.now) q) }
{
    let undone = side(target_of(image, p), !sets_it(image, p));
    if side(target_of(image, q), sets_it(image, q)) != undone {
        return false;
    }
    let t = turn_of(image, p);
    let u = turn_of(image, q);
    let stages = (t != u) & (t < MAX_EVENTS) & (u < MAX_EVENTS);
    let senses = sense_of(image, q) == twin(sense_of(image, p));
    !(stages | senses)
}

// How many marks the round has that begins with mark `from`.
fn round_at(from: usize, marks: usize) -> usize
    requires { from < marks }
    ensures { result ≡ min (marks - from) clash_round }
{
    (marks - from).min(ROUND)
}

// Rule pairs from rule `low` on, until one clashes. `low` is known to clash with some rule, so that the inner loop runs once.
fn search(image: &[u8], rules: usize, low: usize) -> Pair
    requires { (WellFormed image.now) × (rules ≡ rules_in image.now) × (Found (book_of image.now) (marks_in image.now) low) }
    ensures { (result.first ≡ clash_first (book_of image.now)) × (result.second ≡ clash_second (book_of image.now) result.first) }
{
    let mut pair = Pair {
        first: rules,
        second: rules,
    };
    'search: for p in low..rules {
        for q in p + 1..rules {
            if clash(image, p, q) {
                pair = Pair {
                    first: p,
                    second: q,
                };
                break 'search;
            }
        }
    }
    pair
}

// The lowest rule that clashes with some rule, or the number of rules, round after round.
fn lowest_of_all(image: &[u8], rules: usize, marks: usize, work: &mut [u64]) -> usize
    requires { (WellFormed image.now) × (rules ≡ rules_in image.now) × (marks ≡ marks_in image.now) × (clash_work marks ≤ length work.old) }
    ensures { (Found (book_of image.now) (marks_in image.now) result) × (length work.new ≡ length work.old) }
{
    let mut low = rules;
    for from in (0..marks).step_by(ROUND) {
        let n = round_at(from, marks);
        closure::clear(work, ROUND_WORDS * n);
        sum_up(image, rules, from, n, work);
        low = lowest(image, rules, from, n, low, work);
    }
    low
}

// `work` may come with any content: the words of each round are cleared.
// Cost: one pass over the rules for every 192 marks, two more for each mark that is not calm, so at most 2,054, and one for the second rule of a
// pair.
pub fn first_clash(image: &[u8], rules: usize, marks: usize, work: &mut [u64]) -> Pair
    requires { (WellFormed image.now) × (rules ≡ rules_in image.now) × (marks ≡ marks_in image.now) × (clash_work marks ≤ length work.old) }
    ensures first_value { (result.first ≡ clash_first (book_of image.now)) × (result.second ≡ clash_second (book_of image.now) result.first) }
    ensures work_len_unchanged { length work.new ≡ length work.old }
{
    let low = lowest_of_all(image, rules, marks, work);
    search(image, rules, low)
}
