// A function for each operation on charts and books: decodes the fields, makes the call, and puts its line together. `body` is all behind the operation.
use crate::{adler, fields, rooms, show};
use fields::{FLAT, MARKING, SNAPSHOT};
use listing::MAX_LISTING;
use show::LINE;
use std::io;

// Where the order starts in a request to complete: after the stage, the snapshot and the order's length.
const ORDER: usize = 4 + SNAPSHOT + 4;

// Where the image starts in a request to mend: after the lengths of the two rooms.
const IMAGE: usize = 8;

// The image is the whole body.
pub fn read(rt: &impl Print, body: &[u8], line: &mut [u8; LINE]) -> io::Result<usize> {
    let reading = chart::read(body);
    let at = show::answer(rt, line, b"read", reading.answer)?;
    let at = show::number(rt, line, at, reading.chart.count as u64)?;
    let at = show::marking(rt, line, at, reading.marking)?;
    show::chart(rt, line, at, reading.chart, true)
}

pub fn execute(rt: &impl Print, body: &[u8], line: &mut [u8; LINE]) -> io::Result<usize> {
    if body.len() < FLAT + MARKING + 8 {
        return show::bad_request(rt, line);
    }
    let chart = fields::chart_at(body, 0);
    let marking = fields::marking_at(body, FLAT);
    let event = wire::u32_at(body, FLAT + MARKING);
    let role = wire::u32_at(body, FLAT + MARKING + 4);
    let step = marking.execute(chart, event, role);
    let at = show::answer(rt, line, b"execute", step.answer)?;
    let at = show::marking(rt, line, at, step.marking)?;
    show::blocking(rt, line, at, step.conditions, step.milestones)
}

pub fn open_test(rt: &impl Print, body: &[u8], line: &mut [u8; LINE]) -> io::Result<usize> {
    if body.len() < FLAT + MARKING + 4 {
        return show::bad_request(rt, line);
    }
    let chart = fields::chart_at(body, 0);
    let marking = fields::marking_at(body, FLAT);
    let test = marking.open_test(chart, wire::u32_at(body, FLAT + MARKING));
    let at = show::answer(rt, line, b"open", test.answer)?;
    show::blocking(rt, line, at, test.conditions, test.milestones)
}

pub fn count_open(rt: &impl Print, body: &[u8], line: &mut [u8; LINE]) -> io::Result<usize> {
    if body.len() < FLAT + MARKING {
        return show::bad_request(rt, line);
    }
    let chart = fields::chart_at(body, 0);
    let marking = fields::marking_at(body, FLAT);
    let open = marking.count_open(chart);
    let at = show::answer(rt, line, b"count", open.answer)?;
    let at = show::number(rt, line, at, open.count as u64)?;
    show::number(rt, line, at, open.lowest as u64)
}

pub fn finished(rt: &impl Print, body: &[u8], line: &mut [u8; LINE]) -> io::Result<usize> {
    if body.len() < FLAT + MARKING {
        return show::bad_request(rt, line);
    }
    let chart = fields::chart_at(body, 0);
    let marking = fields::marking_at(body, FLAT);
    let finished = marking.finished(chart);
    let at = show::answer(rt, line, b"finished", finished.answer)?;
    show::yes_or_no(rt, line, at, finished.yes)
}

pub fn matching(rt: &impl Print, body: &[u8], line: &mut [u8; LINE]) -> io::Result<usize> {
    if body.len() < FLAT + MARKING {
        return show::bad_request(rt, line);
    }
    let chart = fields::chart_at(body, 0);
    let marking = fields::marking_at(body, FLAT);
    let matched = deriver::matching(chart, marking);
    let at = show::answer(rt, line, b"matching", matched.answer)?;
    show::snapshot(rt, line, at, matched.snapshot)
}

pub fn derive(
    rt: &impl Print,
    body: &[u8],
    room: &mut [u8],
    line: &mut [u8; LINE],
) -> io::Result<usize> {
    if body.len() < 4 + FLAT {
        return show::bad_request(rt, line);
    }
    let n = wire::u32_at(body, 0) as usize;
    if room.len() < n {
        return show::bad_request(rt, line);
    }
    let answer = rooms::derive(fields::chart_at(body, 4), room, n);
    let at = show::answer(rt, line, b"derive", answer)?;
    show::number(rt, line, at, adler::of_bytes(room, n))
}

// The room's sum, then that of the table.
pub fn derive_smaller(
    rt: &impl Print,
    body: &[u8],
    room: &mut [u8],
    line: &mut [u8; LINE],
) -> io::Result<usize> {
    if body.len() < 4 + FLAT + MARKING {
        return show::bad_request(rt, line);
    }
    let n = wire::u32_at(body, 0) as usize;
    if room.len() < n {
        return show::bad_request(rt, line);
    }
    let start = fields::marking_at(body, 4 + FLAT);
    let smaller = rooms::derive_smaller(fields::chart_at(body, 4), start, room, n);
    let at = show::answer(rt, line, b"smaller", smaller.answer)?;
    let at = show::number(rt, line, at, adler::of_bytes(room, n))?;
    show::number(rt, line, at, adler::of_table(&smaller.table))
}

// The book is all that follows the room's size and the stage.
pub fn check(
    rt: &impl Print,
    body: &[u8],
    room: &mut [u32],
    line: &mut [u8; LINE],
) -> io::Result<usize> {
    if body.len() < 8 {
        return show::bad_request(rt, line);
    }
    let n = wire::u32_at(body, 0) as usize;
    if room.len() < n {
        return show::bad_request(rt, line);
    }
    let stage = wire::u32_at(body, 4);
    let answer = rooms::check(&body[8..], stage, room, n);
    let at = show::answer(rt, line, b"check", answer)?;
    show::number(rt, line, at, adler::of_numbers(room, n))
}

// The book is all that follows the order.
pub fn complete(
    rt: &impl Print,
    body: &[u8],
    order: &mut [u32],
    line: &mut [u8; LINE],
) -> io::Result<usize> {
    if body.len() < ORDER {
        return show::bad_request(rt, line);
    }
    let n = wire::u32_at(body, ORDER - 4) as usize;
    if order.len() < n {
        return show::bad_request(rt, line);
    }
    let end = ORDER + 4 * n;
    if body.len() < end {
        return show::bad_request(rt, line);
    }
    let stage = wire::u32_at(body, 0);
    let snapshot = fields::snapshot_at(body, 4);
    fields::numbers_at(body, ORDER, n, order);
    let completion = rooms::complete(&body[end..], order, n, snapshot, stage);
    let at = show::answer(rt, line, b"complete", completion.answer)?;
    show::snapshot(rt, line, at, completion.snapshot)
}

// The book is all that follows the room's size.
pub fn index(
    rt: &impl Print,
    body: &[u8],
    room: &mut [u8],
    line: &mut [u8; LINE],
) -> io::Result<usize> {
    if body.len() < 4 {
        return show::bad_request(rt, line);
    }
    let n = wire::u32_at(body, 0) as usize;
    if room.len() < n {
        return show::bad_request(rt, line);
    }
    let answer = rooms::index(&body[4..], room, n);
    let at = show::answer(rt, line, b"index", answer)?;
    show::number(rt, line, at, adler::of_bytes(room, n))
}

// The book is the whole body.
pub fn back(rt: &impl Print, body: &[u8], line: &mut [u8; LINE]) -> io::Result<usize> {
    let back = read_back::read_back(body);
    let at = show::answer(rt, line, b"back", back.answer)?;
    let at = show::number(rt, line, at, back.chart.count as u64)?;
    show::chart(rt, line, at, back.chart, false)
}

pub fn mend(
    rt: &impl Print,
    body: &[u8],
    chart: &mut [u8],
    list: &mut [u8],
    line: &mut [u8; LINE],
) -> io::Result<usize> {
    if body.len() < IMAGE {
        return show::bad_request(rt, line);
    }
    let n = wire::u32_at(body, 0) as usize;
    let m = wire::u32_at(body, 4) as usize;
    if chart.len() < n {
        return show::bad_request(rt, line);
    }
    if list.len() < m {
        return show::bad_request(rt, line);
    }
    let mended = rooms::mend(&body[IMAGE..], chart, n, list, m);
    let at = show::answer(rt, line, b"mend", mended.answer)?;
    let at = show::number(rt, line, at, mended.entries as u64)?;
    let at = show::number(rt, line, at, adler::of_bytes(chart, n))?;
    show::number(rt, line, at, adler::of_bytes(list, m))
}

// What the listing program prints for the image, which is the whole body: its length and its sum.
pub fn list(
    rt: &impl Print,
    body: &[u8],
    room: &mut [u8; MAX_LISTING],
    line: &mut [u8; LINE],
) -> io::Result<usize> {
    let length = listing::list(body, room);
    let at = show::text(rt, line, 0, b"listing")?;
    let at = show::number(rt, line, at, length as u64)?;
    show::number(rt, line, at, adler::of_bytes(room, length))
}
