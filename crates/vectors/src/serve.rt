// Serving a request in lent rooms: the rest of it is read, the call is made, and its line is printed. Each answers whether to go on.
ghost use Rattle.std.specs.Prelude.{◌≤◌, length as List·length};

use crate::{calls, indexes, input, replays, show};
use listing::MAX_LISTING;
use show::LINE;
use std::io;
use std::io::Read;

// The line for one request but a listing; answers how much of `line` it takes.
fn line_for(
    rt: &impl Print,
    operation: u8,
    body: &[u8],
    room: &mut [u8],
    list: &mut [u8],
    numbers: &mut [u32],
    line: &mut [u8; LINE],
) -> io::Result<usize> {
    match operation {
        1 => calls::read(rt, body, line),
        2 => calls::execute(rt, body, line),
        3 => calls::count_open(rt, body, line),
        4 => calls::finished(rt, body, line),
        5 => calls::matching(rt, body, line),
        6 => calls::derive(rt, body, room, line),
        7 => calls::check(rt, body, numbers, line),
        8 => calls::complete(rt, body, numbers, line),
        9 => calls::index(rt, body, room, line),
        10 => indexes::complete(rt, body, line),
        11 => indexes::complete_list(rt, body, numbers, line),
        12 => replays::replay(rt, body, numbers, line),
        13 => replays::strike(rt, body, numbers, line),
        14 => calls::open_test(rt, body, line),
        15 => calls::back(rt, body, line),
        16 => calls::derive_smaller(rt, body, room, line),
        17 => calls::mend(rt, body, room, list, line),
        _ => show::bad_request(rt, line),
    }
}

fn print(
    rt: &impl Print,
    operation: u8,
    body: &[u8],
    n: usize,
    room: &mut [u8],
    list: &mut [u8],
    numbers: &mut [u32],
    line: &mut [u8; LINE],
) -> io::Result<bool>
    requires { n ≤ List·length body.now }
{
    let at = line_for(rt, operation, &body[..n], room, list, numbers, line)?;
    show::end_line(rt, line, at)
}

// A request of which the first bytes suffice; what is behind them is passed over.
pub fn at_once(
    rt: &impl Print,
    reader: &mut impl Read,
    operation: u8,
    length: usize,
    start: &[u8],
    room: &mut [u8],
    list: &mut [u8],
    numbers: &mut [u32],
    line: &mut [u8; LINE],
) -> io::Result<bool> {
    let n = input::least(length, start.len());
    if !input::skip(reader, length - n)? {
        return show::last_line(rt, line);
    }
    print(rt, operation, start, n, room, list, numbers, line)
}

pub fn in_rooms(
    rt: &impl Print,
    reader: &mut impl Read,
    operation: u8,
    length: usize,
    start: &[u8],
    body: &mut [u8],
    room: &mut [u8],
    list: &mut [u8],
    numbers: &mut [u32],
    line: &mut [u8; LINE],
) -> io::Result<bool> {
    if !input::whole(reader, start, body, length)? {
        return show::last_line(rt, line);
    }
    let n = input::least(length, body.len());
    print(rt, operation, body, n, room, list, numbers, line)
}

fn print_mended(
    rt: &impl Print,
    body: &[u8],
    n: usize,
    chart: &mut [u8],
    list: &mut [u8],
    line: &mut [u8; LINE],
) -> io::Result<bool>
    requires { n ≤ List·length body.now }
{
    let at = calls::mend(rt, &body[..n], chart, list, line)?;
    show::end_line(rt, line, at)
}

// Operation 17 by itself: beside two long rooms there is no stack for what the operations on flat charts take.
pub fn mend(
    rt: &impl Print,
    reader: &mut impl Read,
    length: usize,
    start: &[u8],
    body: &mut [u8],
    chart: &mut [u8],
    list: &mut [u8],
    line: &mut [u8; LINE],
) -> io::Result<bool> {
    if !input::whole(reader, start, body, length)? {
        return show::last_line(rt, line);
    }
    let n = input::least(length, body.len());
    print_mended(rt, body, n, chart, list, line)
}

fn print_listing(
    rt: &impl Print,
    body: &[u8],
    n: usize,
    room: &mut [u8; MAX_LISTING],
    line: &mut [u8; LINE],
) -> io::Result<bool>
    requires { n ≤ List·length body.now }
{
    let at = calls::list(rt, &body[..n], room, line)?;
    show::end_line(rt, line, at)
}

// The listing reads fewer bytes of an image than `start` has.
pub fn list(
    rt: &impl Print,
    reader: &mut impl Read,
    length: usize,
    start: &[u8],
    room: &mut [u8; MAX_LISTING],
    line: &mut [u8; LINE],
) -> io::Result<bool> {
    let n = input::least(length, start.len());
    if !input::skip(reader, length - n)? {
        return show::last_line(rt, line);
    }
    print_listing(rt, start, n, room, line)
}
