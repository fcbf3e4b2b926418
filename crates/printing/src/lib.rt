// Printing: text gathered in a buffer, which is written to standard output whenever it is full. And reading into lent room.
#![tactic(auto)]

ghost use Rattle.std.specs.Prelude.{◌+◌, ◌<◌, length, IfOk, OnErr};
ghost use Rattle.std.specs.Io.{ReadsAtMost};
ghost use Rattle.printing.specs.Filling.{Put, Full};

use paper::Answer;
use std::io::Read;

pub const ROOM: usize = 4096;

// Reads until the room is full or the input ends, and hands back how many bytes it put at the start of the room, or the error of a read that failed, after which
// nothing is known of the room.
pub fn read_full<R: Read>(reader: &mut R, room: &mut [u8]) -> std::io::Result<usize>
    ensures { ReadsAtMost result room.new }
{
    let mut done = 0;
    while done < room.len() {
        let n = reader.read(&mut room[done..])?;
        if n == 0 {
            break;
        }
        done += n;
    }
    Ok(done)
}

// Writes the bytes gathered so far.
pub fn finish(rt: &impl Print, buffer: [u8; ROOM], at: usize) -> std::io::Result<()>
    requires { at < 4096 }
{
    rt.write_all(&buffer[..at])
}

// Every writer here hands back the place behind what it put into the buffer, or the error of a write that failed, which comes only where the buffer became full. The
// buffer is then as the bytes that filled it left it; how many of them are written nobody knows, so a caller puts in no more and hands the error on.
fn byte(rt: &impl Print, buffer: &mut [u8; ROOM], at: usize, b: u8) -> std::io::Result<usize>
    requires { at < 4096 }
    ensures ok { IfOk result (λ next. next < 4096) }
    ensures put { IfOk result (λ next. Put 1 at next buffer.old buffer.new) }
    ensures err { OnErr result (Full 1 at buffer.old buffer.new) }
{
    buffer[at] = b;
    let next = at + 1;
    if next < ROOM {
        return Ok(next);
    }
    rt.write_all(&buffer[..])?;
    Ok(0)
}

pub fn text(rt: &impl Print, buffer: &mut [u8; ROOM], at: usize, s: &[u8]) -> std::io::Result<usize>
    requires { at < 4096 }
    ensures ok { IfOk result (λ next. next < 4096) }
    ensures put { IfOk result (λ next. Put (length s.now) at next buffer.old buffer.new) }
    ensures err { OnErr result (Full (length s.now) at buffer.old buffer.new) }
{
    let mut next = at;
    for b in s {
        next = byte(rt, buffer, next, *b)?;
    }
    Ok(next)
}

// A text, and a number in decimal behind it.
pub fn named(
    rt: &impl Print,
    buffer: &mut [u8; ROOM],
    at: usize,
    name: &[u8],
    n: u64,
) -> std::io::Result<usize>
    requires { at < 4096 }
    ensures ok { IfOk result (λ next. next < 4096) }
    ensures put { IfOk result (λ next. Put (length name.now + 20) at next buffer.old buffer.new) }
    ensures err { OnErr result (Full (length name.now + 20) at buffer.old buffer.new) }
{
    let next = text(rt, buffer, at, name)?;
    let mut digits = [0u8; 20];
    let k = io::decimal(n, &mut digits);
    text(rt, buffer, next, &digits[..k])
}

// The line of an answer: a word, then code, place and other.
pub fn answer(
    rt: &impl Print,
    buffer: &mut [u8; ROOM],
    at: usize,
    word: &[u8],
    a: Answer,
) -> std::io::Result<usize>
    requires { at < 4096 }
    ensures ok { IfOk result (λ next. next < 4096) }
    ensures put { IfOk result (λ next. Put (length word.now + 64) at next buffer.old buffer.new) }
    ensures err { OnErr result (Full (length word.now + 64) at buffer.old buffer.new) }
{
    let b = text(rt, buffer, at, word)?;
    let c = named(rt, buffer, b, b" ", a.code as u64)?;
    let d = named(rt, buffer, c, b" ", a.place as u64)?;
    let e = named(rt, buffer, d, b" ", a.other as u64)?;
    text(rt, buffer, e, b"\n")
}

// Writes the line of a refusal, where nothing else is printed.
pub fn refused(rt: &impl Print, a: Answer) -> std::io::Result<()> {
    let mut buffer = [0u8; ROOM];
    let at = answer(rt, &mut buffer, 0, b"refused", a)?;
    finish(rt, buffer, at)
}

// The line of a book's five counts.
pub fn counts(
    rt: &impl Print,
    buffer: &mut [u8; ROOM],
    at: usize,
    stages: u32,
    marks: u32,
    rules: u32,
    conditions: u32,
    words: u32,
) -> std::io::Result<usize>
    requires { at < 4096 }
    ensures ok { IfOk result (λ next. next < 4096) }
    ensures put { IfOk result (λ next. Put 141 at next buffer.old buffer.new) }
    ensures err { OnErr result (Full 141 at buffer.old buffer.new) }
{
    let a = named(rt, buffer, at, b"stages ", stages as u64)?;
    let b = named(rt, buffer, a, b" marks ", marks as u64)?;
    let c = named(rt, buffer, b, b" rules ", rules as u64)?;
    let d = named(rt, buffer, c, b" conditions ", conditions as u64)?;
    let e = named(rt, buffer, d, b" words ", words as u64)?;
    text(rt, buffer, e, b"\n")
}
