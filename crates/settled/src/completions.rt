// Completions: the paper's example through its derived book, hand-made books in fit orders, and cases for 27 to 30.
use crate::show;
use book::Snapshot;
use std::io;

// Mark m is worth 2 to the m in the first of sixteen numbers, mark 64 + m in the second, and so on.
fn case(
    rt: &impl Print,
    name: &[u8],
    book: &[u8],
    order: &[u32],
    snapshot: Snapshot,
    stage: u32,
) -> io::Result<Snapshot> {
    let done = runner::complete(book, order, snapshot, stage);
    show::marked(rt, name, done.answer, done.snapshot)?;
    Ok(done.snapshot)
}

// The same along the order that the check writes for the stage `asked`, of a book for which seven rules count for each.
fn checked(
    rt: &impl Print,
    name: &[u8],
    book: &[u8],
    asked: u32,
    snapshot: Snapshot,
    stage: u32,
) -> io::Result<Snapshot> {
    let mut order = [9999u32; 7];
    judge::check(book, asked, &mut order);
    case(rt, name, book, &order, snapshot, stage)
}

// 113, then 119, then 238.
fn paper(rt: &impl Print) -> io::Result<()> {
    let read = chart::read(
        b"\x02\x00\x03\x00\x08\x00\x10\x00\xFF\xFF\x04\x00\xFF\xFF\x06\x00\x00\x00\x01\x00\x00\x00\x00\x00\x01\x00\x01\x00\x01\x00\x00\x00\x04\x00",
    );
    let mut book = [0u8; 162];
    deriver::derive(read.chart, &mut book);
    let start = deriver::matching(read.chart, read.marking);
    show::marked(rt, b"complete-start", start.answer, start.snapshot)?;
    checked(rt, b"complete-closed", &book, 1, start.snapshot, 1)?;
    checked(rt, b"complete-other-order", &book, 1, start.snapshot, 0)?;
    let first = checked(rt, b"complete-first", &book, 0, start.snapshot, 0)?;
    checked(rt, b"complete-second", &book, 1, first, 1)?;
    Ok(())
}

// On completion of 0 set 1 and clear 3; on 1 become yes set 2; on 3 become no set 4.
fn by_hand(rt: &impl Print) -> io::Result<()> {
    let book =
        b"\x01\x00\x00\x00\x05\x00\x00\x00\x04\x00\x00\x00\x00\x00\x00\x00\x00\x00\x00\x00\x20\x00\x00\x00\x48\x00\x00\x00\x48\x00\x00\x00\x01\x00\x01\x00\x00\x00\x00\x00\x01\x00\x02\x00\x01\x00\x01\x00\x00\x00\x02\x00\x01\x00\x00\x00\x00\x00\x00\x00\x03\x00\x03\x00\x01\x00\x03\x00\x00\x00\x04\x00";
    let mut marks = [false; paper::MAX_MARKS];
    marks[0] = true;
    marks[3] = true;
    let open = Snapshot { marks };
    case(rt, b"complete-one-order", book, &[0, 1, 2, 3], open, 0)?;
    case(rt, b"complete-another", book, &[2, 3, 0, 1], open, 0)?;
    case(rt, b"complete-rule-twice", book, &[0, 0, 2, 3], open, 0)?;
    case(rt, b"complete-too-early", book, &[1, 0, 2, 3], open, 0)?;
    case(rt, b"complete-no-such-stage", book, &[0, 1, 2, 3], open, 1)?;
    case(rt, b"complete-stage-before-order", book, &[0, 0], open, 1)?;
    case(
        rt,
        b"complete-stage-closed",
        book,
        &[0, 1, 2, 3],
        Snapshot::empty(),
        0,
    )?;
    marks[5] = true;
    case(
        rt,
        b"complete-mark-above",
        book,
        &[0, 1, 2, 3],
        Snapshot { marks },
        0,
    )?;
    Ok(())
}

// On completion of 0 if 2, set 3; on completion of 1 if 3, set 2. Each order lists the one rule of its stage.
fn pair(rt: &impl Print) -> io::Result<()> {
    let book =
        b"\x02\x00\x00\x00\x04\x00\x00\x00\x02\x00\x00\x00\x02\x00\x00\x00\x02\x00\x00\x00\x20\x00\x00\x00\x34\x00\x00\x00\x44\x00\x00\x00\x01\x01\x01\x00\x00\x00\x00\x00\x03\x00\x01\x01\x01\x00\x01\x00\x01\x00\x02\x00\x00\x00\x00\x00\x01\x00\x00\x00\x01\x00\x00\x00\x01\x00\x00\x00\x02\x00\x03\x00";
    let mut marks = [false; paper::MAX_MARKS];
    marks[0] = true;
    marks[1] = true;
    marks[2] = true;
    let open = Snapshot { marks };
    case(rt, b"complete-pair-first", book, &[0], open, 0)?;
    case(rt, b"complete-pair-whole", book, &[0, 1], open, 0)?;
    case(rt, b"complete-pair-wrong", book, &[1], open, 0)?;
    marks[2] = false;
    marks[3] = true;
    case(
        rt,
        b"complete-pair-second",
        book,
        &[1],
        Snapshot { marks },
        1,
    )?;
    Ok(())
}

// On completion of 0 set 1,023, of 1,024 marks; and of 1,023 marks none, while 1,023 is yes.
fn last_mark(rt: &impl Print) -> io::Result<()> {
    let mut marks = [false; paper::MAX_MARKS];
    marks[0] = true;
    marks[64] = true;
    let open = Snapshot { marks };
    case(
        rt,
        b"complete-mark-1023",
        b"\x01\x00\x00\x00\x00\x04\x00\x00\x01\x00\x00\x00\x00\x00\x00\x00\x00\x00\x00\x00\x20\x00\x00\x00\x2A\x00\x00\x00\x2A\x00\x00\x00\x01\x00\x01\x00\x00\x00\x00\x00\xFF\x03",
        &[0],
        open,
        0,
    )?;
    marks[1023] = true;
    case(
        rt,
        b"complete-mark-1023-above",
        b"\x01\x00\x00\x00\xFF\x03\x00\x00\x00\x00\x00\x00\x00\x00\x00\x00\x00\x00\x00\x00\x20\x00\x00\x00\x20\x00\x00\x00\x20\x00\x00\x00",
        &[],
        Snapshot { marks },
        0,
    )?;
    Ok(())
}

pub fn run(rt: &impl Print) -> io::Result<()> {
    paper(rt)?;
    by_hand(rt)?;
    pair(rt)?;
    last_mark(rt)
}
