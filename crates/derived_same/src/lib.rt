// Whether given bytes are a chart's derived book, compared part by part while the deriver's own writers write it: no second book is made.
#![tactic(auto)]

ghost use Rattle.std.specs.Prelude.{ℕ, List, ◌≡◌, ◌+◌, ◌<◌, ◌≤◌, length, take};
ghost use Rattle.paper.specs.Limits.{max_events, book_header};
ghost use Rattle.general.specs.Comparing.{same_bytes, stands_at};
ghost use Rattle.general.specs.Lists.{flat, packed};
ghost use Rattle.general.specs.Writing.{Fits};
ghost use Rattle.flat_chart.specs.Chart.{Fit};
ghost use Rattle.flat_chart.specs.Numbers.{lent_of};
ghost use Rattle.book.specs.ImageOf.{rule_bytes};
ghost use Rattle.derived.specs.Derived.{stage_rules};
ghost use Rattle.derived.specs.Parts.{CompletionsKept, completions_of, TextsKept, records_of, texts_of};
ghost use Rattle.derived.specs.Putting.{Ready, Puts};
ghost use Rattle.deriver.specs.Deriving.{derived_image};
ghost use Rattle.derived_same.specs.Same.{part_room, without_roles, chart_behind, ChartReady};

use flat_chart::LentChart;
use paper::{BOOK_HEADER, CONDITION_SIZE, MAX_EVENTS, RULE_SIZE, WORD_SIZE};

// Bytes of the longest part: a completion has at most two rules for each event and one more. A text is shorter.
const PART_ROOM: usize = RULE_SIZE * (2 * MAX_EVENTS + 1);

// The first bytes of the part stand in the image.
fn part_stands(image: &[u8], at: usize, part: &[u8], count: usize) -> bool
    requires { (at + count ≤ length image.now) × (count ≤ length part.now) }
    ensures { result ≡ stands_at image.now at (take count part.now) }
{
    image[at..at + count] == part[..count]
}

// Whether the parts of the numbers below n stand in the image one behind another. Each call writes one at the start of the room for a part.
fn parts_same<F: Fn(&mut [u8], usize, usize) -> usize>(
    image: &[u8],
    at: usize,
    n: usize,
    part: &mut [u8],
    put: F,
) -> bool
    requires { (parts : ℕ → List ℕ) × Ready n parts (F.pre put) × Puts n parts (F.post put) × ((k : ℕ) → k < n → length (parts k) ≤ length part.old) × Fits image.now at (flat n parts) }
    ensures { (parts : ℕ → List ℕ) → Puts n parts (F.post put) → ((k : ℕ) → k < n → length (parts k) ≤ length part.old) → result ≡ stands_at image.now at (flat n parts) }
{
    let mut next = at;
    for k in 0..n {
        let count = put(part, 0, k);
        if !part_stands(image, next, part, count) {
            return false;
        }
        next += count;
    }
    true
}

fn completions_same(image: &[u8], at: usize, chart: LentChart<'_>, part: &mut [u8]) -> bool
    requires { ((lent_of chart).count ≤ max_events) × CompletionsKept (lent_of chart) × (length part.old ≡ part_room) × Fits image.now at (completions_of (lent_of chart)) }
    ensures { result ≡ stands_at image.now at (completions_of (lent_of chart.entry)) }
{
    parts_same(
        image,
        at,
        chart.count as usize,
        part,
        |part, from, e| rule_writer::put_completion(part, from, chart, e),
    )
}

fn stages_same(image: &[u8], at: usize, n: usize, part: &mut [u8]) -> bool
    requires { (n ≤ max_events) × (length part.old ≡ part_room) × Fits image.now at (packed rule_bytes (flat n stage_rules)) }
    ensures { result ≡ stands_at image.now at (packed rule_bytes (flat n stage_rules)) }
{
    parts_same(image, at, n, part, |part, from, e| {
        rule_writer::put_stage(part, from, e)
    })
}

// A record for each event: its text starts where the one before it ends.
fn conditions_same(image: &[u8], at: usize, chart: LentChart<'_>, part: &mut [u8]) -> bool
    requires { ((lent_of chart).count ≤ max_events) × TextsKept (lent_of chart) × (length part.old ≡ part_room) × Fits image.now at (records_of (lent_of chart)) }
    ensures { result ≡ stands_at image.now at (records_of (lent_of chart.entry)) }
{
    let mut next = at;
    let mut start: usize = 0;
    for e in 0..chart.count as usize {
        let size = text_writer::text_size(chart, e);
        let count = text_writer::put_condition(part, 0, start, size);
        if !part_stands(image, next, part, count) {
            return false;
        }
        next += count;
        start += size;
    }
    true
}

fn texts_same(image: &[u8], at: usize, chart: LentChart<'_>, part: &mut [u8]) -> bool
    requires { ((lent_of chart).count ≤ max_events) × TextsKept (lent_of chart) × (length part.old ≡ part_room) × Fits image.now at (texts_of (lent_of chart)) }
    ensures { result ≡ stands_at image.now at (texts_of (lent_of chart.entry)) }
{
    parts_same(
        image,
        at,
        chart.count as usize,
        part,
        |part, from, e| text_writer::put_text(part, from, chart, e),
    )
}

// Everything behind the header, whose rules on completions are so many.
fn runs_same(image: &[u8], chart: LentChart<'_>, completions: usize, part: &mut [u8]) -> bool
    requires { ChartReady (lent_of chart) completions image.now part.old }
    ensures { result ≡ stands_at image.now book_header (chart_behind (lent_of chart.entry)) }
{
    let n = chart.count as usize;
    let stages = BOOK_HEADER + RULE_SIZE * completions;
    let records = stages + 2 * RULE_SIZE * n;
    let texts = records + CONDITION_SIZE * n;
    completions_same(image, BOOK_HEADER, chart, part)
        && stages_same(image, stages, n, part)
        && conditions_same(image, records, chart, part)
        && texts_same(image, texts, chart, part)
}

// Whether the image is the derived book of a fit chart, byte for byte and in length: the chart without its roles, which a book does not carry.
// Cost: one pass over the tables for the length, and one over the book. Stack: the room for a part, 5 KiB.
pub fn derived_same(image: &[u8], chart: LentChart<'_>) -> bool
    requires { Fit (without_roles (lent_of chart)) }
    ensures { result ≡ same_bytes image.now (derived_image (without_roles (lent_of chart.entry))) }
{
    let n = chart.count as usize;
    let completions = rule_writer::completions_size(chart);
    let rules = completions + 2 * n;
    let words = text_writer::texts_size(chart);
    if image.len() != BOOK_HEADER + RULE_SIZE * rules + CONDITION_SIZE * n + WORD_SIZE * words {
        return false;
    }
    let mut part = [0u8; PART_ROOM];
    let head = deriver::put_header(&mut part, chart.count, rules as u32, words as u32);
    part_stands(image, 0, &part, head) && runs_same(image, chart, completions, &mut part)
}
