// The Adler-32 sum of a room's first bytes, or of its first 32-bit numbers as four bytes each, or of a table of marks, two bytes each.
ghost use Rattle.std.specs.Prelude.{◌≤◌, ◌<◌, length};

use paper::MAX_MARKS;

const BASE: u32 = 65521;

// The two sums; the bytes summed are those so far.
#[derive(Clone, Copy)]
struct Sums {
    low: u32,
    high: u32,
}

fn widened(b: u8) -> u32
    ensures { result < 256 }
{
    b as u32
}

fn with_byte(s: Sums, b: u8) -> Sums
    requires { (s.low < 65521) × (s.high < 65521) }
    ensures { (result.low < 65521) × (result.high < 65521) }
{
    let low = (s.low + widened(b)) % BASE;
    Sums {
        low,
        high: (s.high + low) % BASE,
    }
}

fn with_half(s: Sums, n: u16) -> Sums
    requires { (s.low < 65521) × (s.high < 65521) }
    ensures { (result.low < 65521) × (result.high < 65521) }
{
    with_byte(with_byte(s, (n % 256) as u8), (n / 256) as u8)
}

fn with_number(s: Sums, n: u32) -> Sums
    requires { (s.low < 65521) × (s.high < 65521) }
    ensures { (result.low < 65521) × (result.high < 65521) }
{
    with_half(with_half(s, (n % 65536) as u16), (n / 65536) as u16)
}

fn value(s: Sums) -> u64
    requires { (s.low < 65521) × (s.high < 65521) }
{
    (s.high * 65536 + s.low) as u64
}

pub fn of_bytes(bytes: &[u8], n: usize) -> u64
    requires { n ≤ length bytes.now }
{
    let mut s = Sums { low: 1, high: 0 };
    let mut i = 0;
    while i < n {
        s = with_byte(s, bytes[i]);
        i += 1;
    }
    value(s)
}

pub fn of_numbers(numbers: &[u32], n: usize) -> u64
    requires { n ≤ length numbers.now }
{
    let mut s = Sums { low: 1, high: 0 };
    let mut i = 0;
    while i < n {
        s = with_number(s, numbers[i]);
        i += 1;
    }
    value(s)
}

pub fn of_table(table: &[u16; MAX_MARKS]) -> u64 {
    let mut s = Sums { low: 1, high: 0 };
    let mut m = 0;
    while m < MAX_MARKS {
        s = with_half(s, table[m]);
        m += 1;
    }
    value(s)
}
