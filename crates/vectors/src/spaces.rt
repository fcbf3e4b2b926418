// The arrays that a request is read into and that its call writes to, as long as its operation may ask for. They go up to 8 MB, which is all the stack that a
// program has, so each operation has its own.
use crate::{fields, indexes, input, serve, show};
use fields::{FLAT, MARKING, SNAPSHOT};
use input::START;
use listing::MAX_LISTING;
use paper::{
    BOOK_HEADER, CHART_HEADER, CONDITION_SIZE, MAX_CONDITIONS, MAX_NODES, MAX_RELATIONS, MAX_RULES,
    MAX_WORDS, NODE_SIZE, RELATION_SIZE, RULE_SIZE, WORD_SIZE,
};
use show::LINE;
use std::io;
use std::io::Read;

// The longest room in bytes; the longest order, list and room for an order in numbers; the numbers of the longest record, two for each of as many steps.
const MAX_BYTES: usize = 4000000;

const MAX_NUMBERS: usize = 200000;

const MAX_RECORD: usize = 2 * MAX_NUMBERS;

// One byte more than the longest chart and the longest book: a call that is given so much refuses it as it would all of a longer one.
const CHART: usize = CHART_HEADER + NODE_SIZE * MAX_NODES + RELATION_SIZE * MAX_RELATIONS + 1;

const BOOK: usize = BOOK_HEADER
    + RULE_SIZE * MAX_RULES
    + CONDITION_SIZE * MAX_CONDITIONS
    + WORD_SIZE * MAX_WORDS
    + 1;

// How much of its fields an operation has to have: what stands before a chart or a book, and that.
const CHART_FIELDS: usize = 8 + CHART;

const BOOK_FIELDS: usize = 4 + BOOK;

const ORDER_FIELDS: usize = 4 + SNAPSHOT + 4 + 4 * MAX_NUMBERS + BOOK;

const RECORD_FIELDS: usize = FLAT + MARKING + 8 + 4 * MAX_RECORD;

// What the stack has room for of a request with an index, and beside the longest list.
const INDEX_FIELDS: usize = 8100000;

const LIST_FIELDS: usize = INDEX_FIELDS - 4 * MAX_NUMBERS;

// Room that does for most requests.
pub const SMALL_ROOM: usize = 16384;

pub const SMALL_LIST: usize = 4096;

// As many numbers as the first of the fields may hold.
pub const SMALL_NUMBERS: usize = START / 4;

// Whether the small rooms do for a request.
fn is_small(operation: u8, length: usize, start: &[u8; START]) -> bool {
    let n = wire::u32_at(start, 0) as usize;
    let m = wire::u32_at(start, 4) as usize;
    match operation {
        6 => n <= SMALL_ROOM,
        7 => length <= START && n <= SMALL_NUMBERS,
        9 => length <= START && n <= SMALL_ROOM,
        16 => n <= SMALL_ROOM,
        17 => length <= START && n <= SMALL_ROOM && m <= SMALL_LIST,
        18 => false,
        _ => length <= START,
    }
}

// Whether a list fits into the small rooms.
fn is_short(start: &[u8; START]) -> bool {
    wire::u32_at(start, SNAPSHOT) as usize <= SMALL_NUMBERS
}

// The lowest operation with the same arrays, 0 where the small rooms do.
pub fn asked(operation: u8, length: usize, start: &[u8; START]) -> u8 {
    if is_small(operation, length, start) {
        return 0;
    }
    if operation == 11 && is_short(start) {
        return 10;
    }
    match operation {
        1 => 1,
        6 => 1,
        7 => 7,
        8 => 7,
        9 => 9,
        10 => 10,
        11 => 11,
        12 => 12,
        13 => 12,
        15 => 9,
        16 => 1,
        17 => 17,
        18 => 18,
        _ => 0,
    }
}

fn charts_in(
    rt: &impl Print,
    reader: &mut impl Read,
    operation: u8,
    length: usize,
    start: &[u8; START],
    body: &mut [u8; CHART_FIELDS],
    room: &mut [u8; MAX_BYTES],
    line: &mut [u8; LINE],
) -> io::Result<bool> {
    let mut list = [0u8; 1];
    let mut numbers = [0u32; 1];
    serve::in_rooms(
        rt,
        reader,
        operation,
        length,
        start,
        body,
        room,
        &mut list,
        &mut numbers,
        line,
    )
}

// Operations 1, 6 and 16.
pub fn charts(
    rt: &impl Print,
    reader: &mut impl Read,
    operation: u8,
    length: usize,
    start: &[u8; START],
    line: &mut [u8; LINE],
) -> io::Result<bool> {
    let mut body = [0u8; CHART_FIELDS];
    let mut room = [0u8; MAX_BYTES];
    charts_in(
        rt, reader, operation, length, start, &mut body, &mut room, line,
    )
}

fn books_in(
    rt: &impl Print,
    reader: &mut impl Read,
    operation: u8,
    length: usize,
    start: &[u8; START],
    body: &mut [u8; BOOK_FIELDS],
    room: &mut [u8; MAX_BYTES],
    line: &mut [u8; LINE],
) -> io::Result<bool> {
    let mut list = [0u8; 1];
    let mut numbers = [0u32; 1];
    serve::in_rooms(
        rt,
        reader,
        operation,
        length,
        start,
        body,
        room,
        &mut list,
        &mut numbers,
        line,
    )
}

// Operations 9 and 15.
pub fn books(
    rt: &impl Print,
    reader: &mut impl Read,
    operation: u8,
    length: usize,
    start: &[u8; START],
    line: &mut [u8; LINE],
) -> io::Result<bool> {
    let mut body = [0u8; BOOK_FIELDS];
    let mut room = [0u8; MAX_BYTES];
    books_in(
        rt, reader, operation, length, start, &mut body, &mut room, line,
    )
}

fn orders_in(
    rt: &impl Print,
    reader: &mut impl Read,
    operation: u8,
    length: usize,
    start: &[u8; START],
    body: &mut [u8; ORDER_FIELDS],
    numbers: &mut [u32; MAX_NUMBERS],
    line: &mut [u8; LINE],
) -> io::Result<bool> {
    let mut room = [0u8; 1];
    let mut list = [0u8; 1];
    serve::in_rooms(
        rt, reader, operation, length, start, body, &mut room, &mut list, numbers, line,
    )
}

// Operations 7 and 8.
pub fn orders(
    rt: &impl Print,
    reader: &mut impl Read,
    operation: u8,
    length: usize,
    start: &[u8; START],
    line: &mut [u8; LINE],
) -> io::Result<bool> {
    let mut body = [0u8; ORDER_FIELDS];
    let mut numbers = [0u32; MAX_NUMBERS];
    orders_in(
        rt,
        reader,
        operation,
        length,
        start,
        &mut body,
        &mut numbers,
        line,
    )
}

fn records_in(
    rt: &impl Print,
    reader: &mut impl Read,
    operation: u8,
    length: usize,
    start: &[u8; START],
    body: &mut [u8; RECORD_FIELDS],
    numbers: &mut [u32; MAX_RECORD],
    line: &mut [u8; LINE],
) -> io::Result<bool> {
    let mut room = [0u8; 1];
    let mut list = [0u8; 1];
    serve::in_rooms(
        rt, reader, operation, length, start, body, &mut room, &mut list, numbers, line,
    )
}

// Operations 12 and 13.
pub fn records(
    rt: &impl Print,
    reader: &mut impl Read,
    operation: u8,
    length: usize,
    start: &[u8; START],
    line: &mut [u8; LINE],
) -> io::Result<bool> {
    let mut body = [0u8; RECORD_FIELDS];
    let mut numbers = [0u32; MAX_RECORD];
    records_in(
        rt,
        reader,
        operation,
        length,
        start,
        &mut body,
        &mut numbers,
        line,
    )
}

fn mends_in(
    rt: &impl Print,
    reader: &mut impl Read,
    length: usize,
    start: &[u8; START],
    body: &mut [u8; CHART_FIELDS],
    chart: &mut [u8; MAX_BYTES],
    list: &mut [u8; MAX_BYTES],
    line: &mut [u8; LINE],
) -> io::Result<bool> {
    serve::mend(rt, reader, length, start, body, chart, list, line)
}

// Operation 17.
pub fn mends(
    rt: &impl Print,
    reader: &mut impl Read,
    length: usize,
    start: &[u8; START],
    line: &mut [u8; LINE],
) -> io::Result<bool> {
    let mut body = [0u8; CHART_FIELDS];
    let mut chart = [0u8; MAX_BYTES];
    let mut list = [0u8; MAX_BYTES];
    mends_in(
        rt, reader, length, start, &mut body, &mut chart, &mut list, line,
    )
}

fn indexed_in(
    rt: &impl Print,
    reader: &mut impl Read,
    operation: u8,
    length: usize,
    start: &[u8; START],
    body: &mut [u8; INDEX_FIELDS],
    stages: &mut [u32; SMALL_NUMBERS],
    line: &mut [u8; LINE],
) -> io::Result<bool> {
    if operation == 10 {
        return indexes::indexed(rt, reader, length, start, body, line);
    }
    indexes::listed(rt, reader, length, start, body, stages, line)
}

// Operation 10, and 11 with a list that fits into the small rooms.
pub fn indexed(
    rt: &impl Print,
    reader: &mut impl Read,
    operation: u8,
    length: usize,
    start: &[u8; START],
    stages: &mut [u32; SMALL_NUMBERS],
    line: &mut [u8; LINE],
) -> io::Result<bool> {
    let mut body = [0u8; INDEX_FIELDS];
    indexed_in(
        rt, reader, operation, length, start, &mut body, stages, line,
    )
}

fn listed_in(
    rt: &impl Print,
    reader: &mut impl Read,
    length: usize,
    start: &[u8; START],
    body: &mut [u8; LIST_FIELDS],
    stages: &mut [u32; MAX_NUMBERS],
    line: &mut [u8; LINE],
) -> io::Result<bool> {
    indexes::listed(rt, reader, length, start, body, stages, line)
}

// Operation 11 with a longer list.
pub fn listed(
    rt: &impl Print,
    reader: &mut impl Read,
    length: usize,
    start: &[u8; START],
    line: &mut [u8; LINE],
) -> io::Result<bool> {
    let mut body = [0u8; LIST_FIELDS];
    let mut stages = [0u32; MAX_NUMBERS];
    listed_in(rt, reader, length, start, &mut body, &mut stages, line)
}

// Operation 18.
pub fn listing(
    rt: &impl Print,
    reader: &mut impl Read,
    length: usize,
    start: &[u8; START],
    line: &mut [u8; LINE],
) -> io::Result<bool> {
    let mut room = [0u8; MAX_LISTING];
    serve::list(rt, reader, length, start, &mut room, line)
}
