// Words and decimal numbers written into lent room, run behind run. Every writer hands back the place behind what it wrote.
#![tactic(auto)]

ghost use Rattle.std.specs.Prelude.{[], ◌∷◌, ◌++◌, ◌<◌, length};
ghost use Rattle.general.specs.Writing.{Wrote};
ghost use Rattle.writing.specs.Text.{decimal};
ghost use Rattle.writing.specs.Writers.{Space};

fn byte(room: &mut [u8], at: usize, b: u8) -> usize
    requires { at < length room.old }
    ensures { Wrote room.old at (b ∷ []) result room.new }
{
    room[at] = b;
    at + 1
}

pub fn text(room: &mut [u8], at: usize, s: &[u8]) -> usize
    requires { Space room.old at s.now }
    ensures { Wrote room.old at s.now result room.new }
{
    let next = at + s.len();
    room[at..next].copy_from_slice(s);
    next
}

// A number in decimal.
pub fn number(room: &mut [u8], at: usize, n: u32) -> usize
    requires { Space room.old at (decimal n) }
    ensures { Wrote room.old at (decimal n) result room.new }
{
    if n < 10 {
        byte(room, at, b'0' + n as u8)
    } else {
        let next = number(room, at, n / 10);
        byte(room, next, b'0' + (n % 10) as u8)
    }
}

// A word, and a number behind it.
pub fn named(room: &mut [u8], at: usize, name: &[u8], n: u32) -> usize
    requires { Space room.old at (name.now ++ decimal n) }
    ensures { Wrote room.old at (name.now ++ decimal n) result room.new }
{
    let next = text(room, at, name);
    number(room, next, n)
}
