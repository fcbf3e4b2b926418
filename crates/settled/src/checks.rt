// The check: one case each for 25, 26, 29 and 31, P9 and P10, two rules of two completions that refer to each other, and the paper's
// derived book with its orders.
use crate::show;
use std::io;

fn case(rt: &impl Print, name: &[u8], book: &[u8], stage: u32) -> io::Result<()> {
    let mut order = [9999u32; 4];
    show::line(rt, name, judge::check(book, stage, &mut order))
}

fn refusals(rt: &impl Print) -> io::Result<()> {
    // if not mark 0, set mark 0
    case(
        rt,
        b"check-p9",
        b"\x01\x00\x00\x00\x01\x00\x00\x00\x01\x00\x00\x00\x01\x00\x00\x00\x01\x00\x00\x00\x20\x00\x00\x00\x2A\x00\x00\x00\x32\x00\x00\x00\x00\x02\x01\x00\x00\x00\x00\x00\x00\x00\x00\x00\x00\x00\x01\x00\x00\x00\x00\x00",
        0,
    )?;
    // marks 1, 2 and 3, each become yes by the one before
    case(
        rt,
        b"check-loop-of-three",
        b"\x01\x00\x00\x00\x04\x00\x00\x00\x03\x00\x00\x00\x00\x00\x00\x00\x00\x00\x00\x00\x20\x00\x00\x00\x3E\x00\x00\x00\x3E\x00\x00\x00\x02\x00\x01\x00\x01\x00\x00\x00\x02\x00\x02\x00\x01\x00\x02\x00\x00\x00\x03\x00\x02\x00\x01\x00\x03\x00\x00\x00\x01\x00",
        0,
    )?;
    // both on completion of 0
    case(
        rt,
        b"check-p10-clash",
        b"\x02\x00\x00\x00\x02\x00\x00\x00\x02\x00\x00\x00\x00\x00\x00\x00\x00\x00\x00\x00\x20\x00\x00\x00\x34\x00\x00\x00\x34\x00\x00\x00\x01\x00\x01\x00\x00\x00\x00\x00\x01\x00\x01\x00\x00\x00\x00\x00\x00\x00\x01\x00",
        1,
    )
}

// Set and clear mark 1 on completions of 0 and 1: each stage has one of the two, and there is no stage 2.
fn apart(rt: &impl Print) -> io::Result<()> {
    let book =
        b"\x02\x00\x00\x00\x02\x00\x00\x00\x02\x00\x00\x00\x00\x00\x00\x00\x00\x00\x00\x00\x20\x00\x00\x00\x34\x00\x00\x00\x34\x00\x00\x00\x01\x00\x01\x00\x00\x00\x00\x00\x01\x00\x01\x00\x00\x00\x01\x00\x00\x00\x01\x00";
    case(rt, b"check-p10", book, 0)?;
    case(rt, b"check-p10-other", book, 1)?;
    case(rt, b"check-no-such-stage", book, 2)
}

// On completion of 0 set 2; on 2 become yes set 3; on completion of 1 clear 2. Two of the three count for stage 0.
fn room(rt: &impl Print) -> io::Result<()> {
    let book =
        b"\x02\x00\x00\x00\x04\x00\x00\x00\x03\x00\x00\x00\x00\x00\x00\x00\x00\x00\x00\x00\x20\x00\x00\x00\x3E\x00\x00\x00\x3E\x00\x00\x00\x01\x00\x01\x00\x00\x00\x00\x00\x02\x00\x02\x00\x01\x00\x02\x00\x00\x00\x03\x00\x01\x00\x00\x00\x01\x00\x00\x00\x02\x00";
    let mut one = [9999u32; 1];
    show::line(rt, b"check-no-room", judge::check(book, 0, &mut one))?;
    show::line(
        rt,
        b"check-stage-before-room",
        judge::check(book, 2, &mut one),
    )?;
    show::order(rt, b"check-room-left", &one)?;
    let mut two = [9999u32; 2];
    show::line(rt, b"check-room-for-two", judge::check(book, 0, &mut two))?;
    show::order(rt, b"check-two-of-three", &two)
}

// The order of a stage for which one rule counts.
fn single(rt: &impl Print, name: &[u8], listed: &[u8], book: &[u8], stage: u32) -> io::Result<()> {
    let mut order = [9999u32; 1];
    show::line(rt, name, judge::check(book, stage, &mut order))?;
    show::order(rt, listed, &order)
}

// On completion of 0 if 2, set 3; on completion of 1 if 3, set 2. Then the same without the first trigger.
fn pair(rt: &impl Print) -> io::Result<()> {
    let apart =
        b"\x02\x00\x00\x00\x04\x00\x00\x00\x02\x00\x00\x00\x02\x00\x00\x00\x02\x00\x00\x00\x20\x00\x00\x00\x34\x00\x00\x00\x44\x00\x00\x00\x01\x01\x01\x00\x00\x00\x00\x00\x03\x00\x01\x01\x01\x00\x01\x00\x01\x00\x02\x00\x00\x00\x00\x00\x01\x00\x00\x00\x01\x00\x00\x00\x01\x00\x00\x00\x02\x00\x03\x00";
    single(rt, b"check-pair-first", b"check-pair-first-order", apart, 0)?;
    single(
        rt,
        b"check-pair-second",
        b"check-pair-second-order",
        apart,
        1,
    )?;
    let looped =
        b"\x02\x00\x00\x00\x04\x00\x00\x00\x02\x00\x00\x00\x02\x00\x00\x00\x02\x00\x00\x00\x20\x00\x00\x00\x34\x00\x00\x00\x44\x00\x00\x00\x00\x01\x01\x00\x00\x00\x00\x00\x03\x00\x01\x01\x01\x00\x01\x00\x01\x00\x02\x00\x00\x00\x00\x00\x01\x00\x00\x00\x01\x00\x00\x00\x01\x00\x00\x00\x02\x00\x03\x00";
    case(rt, b"check-pair-bare-first", looped, 0)?;
    case(rt, b"check-pair-bare-second", looped, 1)?;
    case(rt, b"check-pair-bare-nowhere", looped, 2)
}

// The paper's chart, derived and checked for both stages: seven of its ten rules count for each.
fn derived(rt: &impl Print) -> io::Result<()> {
    let read = chart::read(
        b"\x02\x00\x03\x00\x08\x00\x10\x00\xFF\xFF\x04\x00\xFF\xFF\x06\x00\x00\x00\x01\x00\x00\x00\x00\x00\x01\x00\x01\x00\x01\x00\x00\x00\x04\x00",
    );
    let mut book = [0u8; 162];
    show::line(rt, b"check-derive", deriver::derive(read.chart, &mut book))?;
    let mut order = [9999u32; 7];
    show::line(rt, b"check-derived", judge::check(&book, 0, &mut order))?;
    show::order(rt, b"check-order", &order)?;
    show::line(
        rt,
        b"check-derived-other",
        judge::check(&book, 1, &mut order),
    )?;
    show::order(rt, b"check-order-other", &order)
}

pub fn run(rt: &impl Print) -> io::Result<()> {
    refusals(rt)?;
    apart(rt)?;
    room(rt)?;
    pair(rt)?;
    derived(rt)
}
