// Reads a stage's number (32 bits) and a rule book from standard input, checks the book for the stage, and prints the answer, and of a
// book that passes the counts and that stage's running order.
#![tactic(auto)]

ghost use Rattle.std.specs.Prelude.{◌+◌, ◌*◌, ◌<◌, ◌≤◌, length, IfOk, OnErr};
ghost use Rattle.paper.specs.Limits.{max_rules};
ghost use Rattle.order_theory.specs.Order.{counted_rules};
ghost use Rattle.rule_order.specs.Nets.{rules_of};
ghost use Rattle.judge.specs.Checking.{CheckPasses};
ghost use Rattle.printing.specs.Filling.{Full};

use paper::{
    BOOK_HEADER, CONDITION_SIZE, MAX_CONDITIONS, MAX_RULES, MAX_WORDS, RULE_SIZE, WORD_SIZE,
};
use printing::ROOM;
use std::io::Read;

// The bytes of the stage's number.
const STAGE: usize = 4;

// The stage, the longest book image, and one byte more, which shows a longer input for what it is.
const INPUT: usize = STAGE
    + BOOK_HEADER
    + RULE_SIZE * MAX_RULES
    + CONDITION_SIZE * MAX_CONDITIONS
    + WORD_SIZE * MAX_WORDS
    + 1;

// The first numbers of the room, which are the running order, behind the word `order`.
fn order_line(
    rt: &impl Print,
    buffer: &mut [u8; ROOM],
    at: usize,
    order: &[u32; MAX_RULES],
    rules: usize,
) -> std::io::Result<usize>
    requires { (at < 4096) × (rules ≤ max_rules) }
    ensures ok { IfOk result (λ next. next < 4096) }
    ensures err { OnErr result (Full (6 + 21 * rules) at buffer.old buffer.new) }
{
    let mut next = printing::text(rt, buffer, at, b"order")?;
    for number in &order[..rules] {
        next = printing::named(rt, buffer, next, b" ", u64::from(*number))?;
    }
    printing::text(rt, buffer, next, b"\n")
}

// What is printed of a book that passes, behind the answer.
fn passed_lines(
    rt: &impl Print,
    buffer: &mut [u8; ROOM],
    at: usize,
    book: &[u8],
    stage: u32,
    order: &[u32; MAX_RULES],
) -> std::io::Result<usize>
    requires { (at < 4096) × (CheckPasses book.now stage max_rules) }
    ensures ok { IfOk result (λ next. next < 4096) }
    ensures err { OnErr result (Full (147 + 21 * counted_rules (rules_of book.now stage)) at buffer.old buffer.new) }
{
    let h = book::header::counts_at(book);
    let a = printing::counts(
        rt,
        buffer,
        at,
        h.stages,
        h.marks,
        h.rules,
        h.conditions,
        h.words,
    )?;
    let counted = rule_order::counted::counted_rules(book, h.rules as usize, stage);
    order_line(rt, buffer, a, order, counted)
}

fn report(
    rt: &impl Print,
    book: &[u8],
    stage: u32,
    order: &mut [u32; MAX_RULES],
) -> std::io::Result<()> {
    let answer = judge::check(book, stage, order);
    let mut buffer = [0u8; ROOM];
    let at = printing::answer(rt, &mut buffer, 0, b"checked", answer)?;
    if answer.code != 0 {
        return printing::finish(rt, buffer, at);
    }
    let end = passed_lines(rt, &mut buffer, at, book, stage, order)?;
    printing::finish(rt, buffer, end)
}

// The stage and the book behind it, of which so many bytes were read.
fn check_read(
    rt: &impl Print,
    input: &[u8],
    n: usize,
    order: &mut [u32; MAX_RULES],
) -> std::io::Result<()>
    requires { n ≤ length input.now }
{
    if n < STAGE {
        return report(rt, b"", 0, order);
    }
    let stage = wire::u32_at(input, 0);
    report(rt, &input[STAGE..n], stage, order)
}

fn check_input(
    rt: &impl Print,
    reader: &mut impl Read,
    input: &mut [u8; INPUT],
    order: &mut [u32; MAX_RULES],
) -> std::io::Result<()> {
    let n = printing::read_full(reader, input)?;
    check_read(rt, input, n, order)
}

// A read or a write that fails ends the program with its error.
fn main(rt: HostRuntime) -> std::io::Result<()> {
    let mut input = [0u8; INPUT];
    let mut order = [0u32; MAX_RULES];
    check_input(&rt, &mut rt.stdin(), &mut input, &mut order)
}
