// Test vectors: reads requests from standard input, makes the public call that each names, and prints one line for each.
#![tactic(auto)]

mod adler;
mod calls;
mod fields;
mod indexes;
mod input;
mod replays;
mod rooms;
mod serve;
mod show;
mod spaces;

use input::{BAD, ENDED, START};
use show::LINE;
use spaces::{SMALL_LIST, SMALL_NUMBERS, SMALL_ROOM};
use std::io::Read;

// Takes up to 2 to the `level` requests and prints their lines; answers whether to go on. That it calls itself keeps the compiler from laying the arrays of all
// operations into one frame, which would not fit on the stack.
fn take_requests(
    rt: &impl Print,
    reader: &mut impl Read,
    level: u32,
    start: &mut [u8; START],
    room: &mut [u8; SMALL_ROOM],
    list: &mut [u8; SMALL_LIST],
    numbers: &mut [u32; SMALL_NUMBERS],
    line: &mut [u8; LINE],
) -> std::io::Result<bool> {
    if level > 0 {
        return Ok(
            take_requests(rt, reader, level - 1, start, room, list, numbers, line)?
                && take_requests(rt, reader, level - 1, start, room, list, numbers, line)?,
        );
    }
    let head = input::next(reader, start)?;
    if head.next == ENDED {
        return Ok(false);
    }
    if head.next == BAD {
        return show::last_line(rt, line);
    }
    let operation = head.operation;
    let length = head.length;
    match spaces::asked(operation, length, start) {
        1 => spaces::charts(rt, reader, operation, length, start, line),
        7 => spaces::orders(rt, reader, operation, length, start, line),
        9 => spaces::books(rt, reader, operation, length, start, line),
        10 => spaces::indexed(rt, reader, operation, length, start, numbers, line),
        11 => spaces::listed(rt, reader, length, start, line),
        12 => spaces::records(rt, reader, operation, length, start, line),
        17 => spaces::mends(rt, reader, length, start, line),
        18 => spaces::listing(rt, reader, length, start, line),
        _ => serve::at_once(
            rt, reader, operation, length, start, room, list, numbers, line,
        ),
    }
}

// Nothing says that the input ends, so the requests are counted, to a number that no run comes to. A read or a write that fails ends the program with its error.
fn main(rt: HostRuntime) -> std::io::Result<()> {
    let mut start = [0u8; START];
    let mut room = [0u8; SMALL_ROOM];
    let mut list = [0u8; SMALL_LIST];
    let mut numbers = [0u32; SMALL_NUMBERS];
    let mut line = [0u8; LINE];
    take_requests(
        &rt,
        &mut rt.stdin(),
        64,
        &mut start,
        &mut room,
        &mut list,
        &mut numbers,
        &mut line,
    )?;
    Ok(())
}
