// Printing: a line is put together in a buffer, number by number, and written at its end. Each writer hands back the place behind what it wrote, or the error of a
// write that failed.
ghost use Rattle.std.specs.Prelude.{◌≡◌, ◌+◌, ◌≤◌, ◌<◌, length, IfOk, OnErr};
ghost use Rattle.paper.specs.Limits.{max_events, max_marks};

use crate::fields;
use book::Snapshot;
use flat_chart::FlatChart;
use graph::Marking;
use paper::{Answer, MAX_EVENTS, MAX_MARKS};
use wide::{Set, TABLE};

// Room for most lines; a longer one, as that of a chart, is written in parts.
pub const LINE: usize = 8192;

fn put(rt: &impl Print, line: &mut [u8; LINE], at: usize, b: u8) -> std::io::Result<usize>
    ensures ok { IfOk result (λ next. next ≤ 8192) }
    ensures err { OnErr result ((line.new ≡ line.old) × (8192 ≤ at)) }
{
    if at < LINE {
        line[at] = b;
        return Ok(at + 1);
    }
    rt.write_all(line)?;
    line[0] = b;
    Ok(1)
}

pub fn text(
    rt: &impl Print,
    line: &mut [u8; LINE],
    start: usize,
    words: &[u8],
) -> std::io::Result<usize> {
    let mut at = start;
    let mut i = 0;
    while i < words.len() {
        at = put(rt, line, at, words[i])?;
        i += 1;
    }
    Ok(at)
}

pub fn number(rt: &impl Print, line: &mut [u8; LINE], at: usize, n: u64) -> std::io::Result<usize> {
    let mut digits = [0u8; 20];
    let k = io::decimal(n, &mut digits);
    let next = put(rt, line, at, b' ')?;
    text(rt, line, next, &digits[..k])
}

// A call's name and its answer: how each line begins.
pub fn answer(
    rt: &impl Print,
    line: &mut [u8; LINE],
    name: &[u8],
    a: Answer,
) -> std::io::Result<usize> {
    let at = text(rt, line, 0, name)?;
    let at = number(rt, line, at, a.code as u64)?;
    let at = number(rt, line, at, a.place as u64)?;
    number(rt, line, at, a.other as u64)
}

pub fn yes_or_no(
    rt: &impl Print,
    line: &mut [u8; LINE],
    at: usize,
    yes: bool,
) -> std::io::Result<usize> {
    if yes {
        return text(rt, line, at, b" yes");
    }
    text(rt, line, at, b" no")
}

// Lowest members first.
fn set(rt: &impl Print, line: &mut [u8; LINE], at: usize, s: Set) -> std::io::Result<usize> {
    let at = number(rt, line, at, s.w0)?;
    let at = number(rt, line, at, s.w1)?;
    let at = number(rt, line, at, s.w2)?;
    number(rt, line, at, s.w3)
}

pub fn marking(
    rt: &impl Print,
    line: &mut [u8; LINE],
    at: usize,
    m: Marking,
) -> std::io::Result<usize> {
    let at = set(rt, line, at, m.executed)?;
    let at = set(rt, line, at, m.pending)?;
    set(rt, line, at, m.included)
}

// All that blocks an event.
pub fn blocking(
    rt: &impl Print,
    line: &mut [u8; LINE],
    at: usize,
    conditions: Set,
    milestones: Set,
) -> std::io::Result<usize> {
    let at = set(rt, line, at, conditions)?;
    set(rt, line, at, milestones)
}

// The five sets of an event.
fn event<'a>(
    rt: &impl Print,
    line: &mut [u8; LINE],
    at: usize,
    e: usize,
    conditions: &'a [u64; TABLE],
    responses: &'a [u64; TABLE],
    milestones: &'a [u64; TABLE],
    includes: &'a [u64; TABLE],
    excludes: &'a [u64; TABLE],
) -> std::io::Result<usize>
    requires { e < max_events }
{
    let at = set(rt, line, at, wide::row(conditions, e))?;
    let at = set(rt, line, at, wide::row(responses, e))?;
    let at = set(rt, line, at, wide::row(milestones, e))?;
    let at = set(rt, line, at, wide::row(includes, e))?;
    set(rt, line, at, wide::row(excludes, e))
}

// The five sets of each event, and its role byte where roles are asked for.
pub fn chart(
    rt: &impl Print,
    line: &mut [u8; LINE],
    start: usize,
    c: FlatChart,
    roles: bool,
) -> std::io::Result<usize> {
    let n = c.count as usize;
    let mut at = start;
    let mut e = 0;
    while e < MAX_EVENTS && e < n {
        at = event(
            rt,
            line,
            at,
            e,
            &c.conditions,
            &c.responses,
            &c.milestones,
            &c.includes,
            &c.excludes,
        )?;
        if roles {
            at = number(rt, line, at, fields::widened(c.roles[e]))?;
        }
        e += 1;
    }
    Ok(at)
}

// 64 marks as a number.
fn word(marks: &[bool; MAX_MARKS], from: usize) -> u64
    requires { from + 64 ≤ max_marks }
{
    let mut word: u64 = 0;
    let mut i = 0;
    while i < 64 {
        word = sets::put_if(word, i, marks[from + i]);
        i += 1;
    }
    word
}

pub fn snapshot(
    rt: &impl Print,
    line: &mut [u8; LINE],
    start: usize,
    s: Snapshot,
) -> std::io::Result<usize> {
    let mut at = start;
    let mut i = 0;
    while i < MAX_MARKS / 64 {
        at = number(rt, line, at, word(&s.marks, 64 * i))?;
        i += 1;
    }
    Ok(at)
}

pub fn bad_request(rt: &impl Print, line: &mut [u8; LINE]) -> std::io::Result<usize> {
    text(rt, line, 0, b"bad request")
}

fn write_first(rt: &impl Print, line: &[u8], n: usize) -> std::io::Result<()>
    requires { n ≤ length line.now }
{
    rt.write_all(&line[..n])
}

// Writes the line out; answers that there is more to come, or the error of the write.
pub fn end_line(rt: &impl Print, line: &mut [u8; LINE], at: usize) -> std::io::Result<bool> {
    let end = put(rt, line, at, b'\n')?;
    write_first(rt, line, end)?;
    Ok(true)
}

// The line of a request that cannot be told from what follows it.
pub fn last_line(rt: &impl Print, line: &mut [u8; LINE]) -> std::io::Result<bool> {
    let at = bad_request(rt, line)?;
    end_line(rt, line, at)?;
    Ok(false)
}
