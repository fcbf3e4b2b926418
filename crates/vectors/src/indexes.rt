// Operations 10 and 11: completing through an index. `body` is all behind the operation. A request that does not fit into memory is answered without its
// index, unless that has the length that the book asks for: that one is a bad request.
ghost use Rattle.std.specs.Prelude.{◌≡◌, ◌+◌, ◌-◌, ◌*◌, ◌≤◌, ◌<◌, length as List·length};
ghost use Rattle.vectors.specs.Sizes.{snapshot_bytes};

use crate::{fields, input, rooms, show};
use book::Snapshot;
use fields::SNAPSHOT;
use indexed::IndexedCompletion;
use indexed_list::ListCompletion;
use paper::INDEX_ROOM;
use show::LINE;
use std::io;
use std::io::Read;

// Where the index starts in a request to complete through it: after the stage, the snapshot and the index's length.
const INDEX: usize = 4 + SNAPSHOT + 4;

// Where the list starts in a request to complete one: after the snapshot and the number of its stages.
const STAGES: usize = SNAPSHOT + 4;

fn completion_line(
    rt: &impl Print,
    line: &mut [u8; LINE],
    completion: IndexedCompletion,
) -> io::Result<usize> {
    let at = show::answer(rt, line, b"indexed", completion.answer)?;
    let at = show::snapshot(rt, line, at, completion.snapshot)?;
    show::number(rt, line, at, completion.evaluated as u64)
}

fn list_line(
    rt: &impl Print,
    line: &mut [u8; LINE],
    completion: ListCompletion,
) -> io::Result<usize> {
    let at = show::answer(rt, line, b"list", completion.answer)?;
    let at = show::number(rt, line, at, completion.granted as u64)?;
    let at = show::snapshot(rt, line, at, completion.snapshot)?;
    show::number(rt, line, at, completion.evaluated as u64)
}

// The book is all that follows the index.
pub fn complete(rt: &impl Print, body: &[u8], line: &mut [u8; LINE]) -> io::Result<usize> {
    if body.len() < INDEX {
        return show::bad_request(rt, line);
    }
    let n = wire::u32_at(body, INDEX - 4) as usize;
    if body.len() - INDEX < n {
        return show::bad_request(rt, line);
    }
    let stage = wire::u32_at(body, 0);
    let snapshot = fields::snapshot_at(body, 4);
    let end = INDEX + n;
    completion_line(
        rt,
        line,
        indexed::complete(&body[end..], &body[INDEX..end], snapshot, stage),
    )
}

// The book is all that follows the index, which follows the list and its own length.
pub fn complete_list(
    rt: &impl Print,
    body: &[u8],
    stages: &mut [u32],
    line: &mut [u8; LINE],
) -> io::Result<usize> {
    if body.len() < STAGES {
        return show::bad_request(rt, line);
    }
    let n = wire::u32_at(body, STAGES - 4) as usize;
    if stages.len() < n {
        return show::bad_request(rt, line);
    }
    let start = STAGES + 4 * n + 4;
    if body.len() < start {
        return show::bad_request(rt, line);
    }
    let bytes = wire::u32_at(body, start - 4) as usize;
    if body.len() - start < bytes {
        return show::bad_request(rt, line);
    }
    let snapshot = fields::snapshot_at(body, 0);
    fields::numbers_at(body, STAGES, n, stages);
    let end = start + bytes;
    list_line(
        rt,
        line,
        rooms::complete_list(&body[end..], &body[start..end], snapshot, stages, n),
    )
}

// Whether a book asks for an index of n bytes.
fn asks_for(book: &[u8], n: usize) -> bool {
    let mut room = [0u8; 1];
    let answer = index_builder::build(book, &mut room);
    answer.code == INDEX_ROOM && answer.place as usize == n
}

// What a completion gives without its index, which had n bytes; the book is the first m.
fn without_index(
    rt: &impl Print,
    body: &[u8],
    m: usize,
    n: usize,
    snapshot: Snapshot,
    stage: u32,
    line: &mut [u8; LINE],
) -> io::Result<usize>
    requires { m ≤ List·length body.now }
{
    let book = &body[..m];
    if asks_for(book, n) {
        return show::bad_request(rt, line);
    }
    completion_line(rt, line, indexed::complete(book, b"", snapshot, stage))
}

// What completing the first k stages gives without the index, which had n bytes; the book is the first m.
fn list_without_index(
    rt: &impl Print,
    body: &[u8],
    m: usize,
    n: usize,
    snapshot: Snapshot,
    stages: &[u32],
    k: usize,
    line: &mut [u8; LINE],
) -> io::Result<usize>
    requires { (m ≤ List·length body.now) × (k ≤ List·length stages.now) }
{
    let book = &body[..m];
    if asks_for(book, n) {
        return show::bad_request(rt, line);
    }
    list_line(
        rt,
        line,
        rooms::complete_list(book, b"", snapshot, stages, k),
    )
}

// How far a is past b.
fn past(a: usize, b: usize) -> usize
    ensures { result ≡ a - b }
{
    if b < a { a - b } else { 0 }
}

// Moves n bytes to the front.
fn shift(room: &mut [u8], from: usize, n: usize)
    requires { n ≤ List·length room.old - from }
{
    let mut i = 0;
    while i < n {
        room[i] = room[from + i];
        i += 1;
    }
}

// Brings the book, which is the fields from a place on, to the front of the room, which has the first of them; answers whether all was there.
fn bring_book(
    reader: &mut impl Read,
    room: &mut [u8],
    from: usize,
    length: usize,
) -> io::Result<bool>
    requires { (from ≤ length) × (List·length room.old < length) }
{
    let size = room.len();
    let had = past(size, from);
    shift(room, from, had);
    let kept = input::least(length - from, size);
    if !input::skip(reader, past(from, size))? {
        return Ok(false);
    }
    if !input::read_at(reader, room, had, kept - had)? {
        return Ok(false);
    }
    input::skip(reader, length - from - kept)
}

// The line of a request whose last n bytes are not read yet and say nothing.
fn bad_request(
    rt: &impl Print,
    reader: &mut impl Read,
    n: usize,
    line: &mut [u8; LINE],
) -> io::Result<bool> {
    if !input::skip(reader, n)? {
        return show::last_line(rt, line);
    }
    let at = show::bad_request(rt, line)?;
    show::end_line(rt, line, at)
}

fn long_indexed(
    rt: &impl Print,
    reader: &mut impl Read,
    length: usize,
    body: &mut [u8],
    line: &mut [u8; LINE],
) -> io::Result<bool>
    requires { (8 + snapshot_bytes ≤ List·length body.old) × (List·length body.old < length) }
{
    let n = wire::u32_at(body, INDEX - 4) as usize;
    let end = INDEX + n;
    if length < end {
        return bad_request(rt, reader, length - body.len(), line);
    }
    let stage = wire::u32_at(body, 0);
    let snapshot = fields::snapshot_at(body, 4);
    if !bring_book(reader, body, end, length)? {
        return show::last_line(rt, line);
    }
    let m = input::least(length - end, body.len());
    let at = without_index(rt, body, m, n, snapshot, stage, line)?;
    show::end_line(rt, line, at)
}

fn print_completion(
    rt: &impl Print,
    body: &[u8],
    n: usize,
    line: &mut [u8; LINE],
) -> io::Result<bool>
    requires { n ≤ List·length body.now }
{
    let at = complete(rt, &body[..n], line)?;
    show::end_line(rt, line, at)
}

// Operation 10 in lent room.
pub fn indexed(
    rt: &impl Print,
    reader: &mut impl Read,
    length: usize,
    start: &[u8],
    body: &mut [u8],
    line: &mut [u8; LINE],
) -> io::Result<bool>
    requires { 8 + snapshot_bytes ≤ List·length body.old }
{
    let n = input::least(length, body.len());
    if !input::first(reader, start, body, n)? {
        return show::last_line(rt, line);
    }
    if n < length {
        return long_indexed(rt, reader, length, body, line);
    }
    print_completion(rt, body, n, line)
}

fn long_listed(
    rt: &impl Print,
    reader: &mut impl Read,
    length: usize,
    body: &mut [u8],
    stages: &mut [u32],
    line: &mut [u8; LINE],
) -> io::Result<bool>
    requires { (8 + snapshot_bytes + 4 * List·length stages.old ≤ List·length body.old) × (List·length body.old < length) }
{
    let k = wire::u32_at(body, STAGES - 4) as usize;
    if stages.len() < k {
        return bad_request(rt, reader, length - body.len(), line);
    }
    let index = STAGES + 4 * k + 4;
    let n = wire::u32_at(body, index - 4) as usize;
    let end = index + n;
    if length < end {
        return bad_request(rt, reader, length - body.len(), line);
    }
    let snapshot = fields::snapshot_at(body, 0);
    fields::numbers_at(body, STAGES, k, stages);
    if !bring_book(reader, body, end, length)? {
        return show::last_line(rt, line);
    }
    let m = input::least(length - end, body.len());
    let at = list_without_index(rt, body, m, n, snapshot, stages, k, line)?;
    show::end_line(rt, line, at)
}

fn print_list(
    rt: &impl Print,
    body: &[u8],
    n: usize,
    stages: &mut [u32],
    line: &mut [u8; LINE],
) -> io::Result<bool>
    requires { n ≤ List·length body.now }
{
    let at = complete_list(rt, &body[..n], stages, line)?;
    show::end_line(rt, line, at)
}

// Operation 11 in lent room.
pub fn listed(
    rt: &impl Print,
    reader: &mut impl Read,
    length: usize,
    start: &[u8],
    body: &mut [u8],
    stages: &mut [u32],
    line: &mut [u8; LINE],
) -> io::Result<bool>
    requires { 8 + snapshot_bytes + 4 * List·length stages.old ≤ List·length body.old }
{
    let n = input::least(length, body.len());
    if !input::first(reader, start, body, n)? {
        return show::last_line(rt, line);
    }
    if n < length {
        return long_listed(rt, reader, length, body, stages, line);
    }
    print_list(rt, body, n, stages, line)
}
