// Reading requests: what stands before the fields, the first of the fields, and as much of the rest as is wanted.
ghost use Rattle.std.specs.Prelude.{◌≡◌, ◌+◌, ◌≤◌, min, length};

use std::io::Read;

// The longest body of a request: the operation and its fields.
const MAX_BODY: usize = 8388608;

// How many bytes of the fields are read before it is known what else is wanted: more than a chart, a marking and the numbers beside them.
pub const START: usize = 45056;

// What the input goes on with.
pub const ENDED: u8 = 0;

pub const BAD: u8 = 1;

pub const REQUEST: u8 = 2;

// A request's operation, and the length of its fields; or that there is none, or one that cannot be told from what follows it.
#[derive(Clone, Copy)]
pub struct Head {
    pub next: u8,
    pub operation: u8,
    pub length: usize,
}

pub fn least(a: usize, b: usize) -> usize
    ensures { result ≡ min a b }
{
    if a < b { a } else { b }
}

// Reads n bytes into the room, from a place on; answers whether they were there.
pub fn read_at(
    reader: &mut impl Read,
    room: &mut [u8],
    at: usize,
    n: usize,
) -> std::io::Result<bool>
    requires { at + n ≤ length room.old }
{
    let end = at + n;
    let got = printing::read_full(reader, &mut room[at..end])?;
    Ok(got == n)
}

// Passes over n bytes; answers whether they were there.
pub fn skip(reader: &mut impl Read, n: usize) -> std::io::Result<bool> {
    let mut some = io::buffer();
    let mut left = n;
    while left > 0 {
        let now = least(left, 4096);
        if !read_at(reader, &mut some, 0, now)? {
            return Ok(false);
        }
        left -= now;
    }
    Ok(true)
}

fn none(next: u8) -> Head {
    Head {
        next,
        operation: 0,
        length: 0,
    }
}

// The next request, with the first of its fields in `start`.
pub fn next(reader: &mut impl Read, start: &mut [u8; START]) -> std::io::Result<Head> {
    let mut head = [0u8; 5];
    let got = printing::read_full(reader, &mut head)?;
    if got < 4 {
        return Ok(none(ENDED));
    }
    let body = wire::u32_at(&head, 0) as usize;
    if got < 5 || body < 1 || MAX_BODY < body {
        return Ok(none(BAD));
    }
    let length = body - 1;
    if !read_at(reader, start, 0, least(length, START))? {
        return Ok(none(BAD));
    }
    Ok(Head {
        next: REQUEST,
        operation: head[4],
        length,
    })
}

fn copy(from: &[u8], to: &mut [u8], n: usize)
    requires { (n ≤ length from.now) × (n ≤ length to.old) }
{
    let mut i = 0;
    while i < n {
        to[i] = from[i];
        i += 1;
    }
}

// The first n bytes of the fields, of which `start` has the first already; answers whether they were there.
pub fn first(
    reader: &mut impl Read,
    start: &[u8],
    fields: &mut [u8],
    n: usize,
) -> std::io::Result<bool>
    requires { n ≤ length fields.old }
{
    let had = least(start.len(), n);
    copy(start, fields, had);
    read_at(reader, fields, had, n - had)
}

// As many bytes of the fields as there is room for; what is behind them is passed over. Answers whether all were there.
pub fn whole(
    reader: &mut impl Read,
    start: &[u8],
    fields: &mut [u8],
    length: usize,
) -> std::io::Result<bool> {
    let kept = least(length, fields.len());
    Ok(first(reader, start, fields, kept)? && skip(reader, length - kept)?)
}
