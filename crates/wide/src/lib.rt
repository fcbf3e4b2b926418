// Sets of events or stages, in four words of 64 digits, and tables of them.
#![tactic(auto)]

ghost use Rattle.std.specs.Prelude.{◌≡◌, ◌+◌, ◌*◌, ◌-◌, ◌<◌, ◌≤◌, min, eqb, get_or, set, length};
ghost use Rattle.paper.specs.Limits.{max_events};
ghost use Rattle.sets.specs.Set.{has, minus, only, union, inter, size, lowest, all_below, put_if, within};
ghost use Rattle.wide.specs.Number.{number, words_of, row_of, rows_of, put_row};

use paper::MAX_EVENTS;

// Words of a set.
pub const SET_WORDS: usize = MAX_EVENTS / 64;

// Words of a table: row e stands at 4e.
pub const TABLE: usize = MAX_EVENTS * SET_WORDS;

// The lowest word first.
#[repr(C)]
#[derive(Clone, Copy)]
pub struct Set {
    pub w0: u64,
    pub w1: u64,
    pub w2: u64,
    pub w3: u64,
}

#[tactic(auto, unfolding(crate::specs::Number::number))]
pub fn empty() -> Set
    ensures { number result ≡ 0 }
{
    Set {
        w0: 0,
        w1: 0,
        w2: 0,
        w3: 0,
    }
}

pub fn join(a: Set, b: Set) -> Set
    ensures { number result ≡ union (number a) (number b) }
{
    Set {
        w0: a.w0 | b.w0,
        w1: a.w1 | b.w1,
        w2: a.w2 | b.w2,
        w3: a.w3 | b.w3,
    }
}

pub fn meet(a: Set, b: Set) -> Set
    ensures { number result ≡ inter (number a) (number b) }
{
    Set {
        w0: a.w0 & b.w0,
        w1: a.w1 & b.w1,
        w2: a.w2 & b.w2,
        w3: a.w3 & b.w3,
    }
}

pub fn less(a: Set, b: Set) -> Set
    ensures { number result ≡ minus (number a) (number b) }
{
    Set {
        w0: sets::less(a.w0, b.w0),
        w1: sets::less(a.w1, b.w1),
        w2: sets::less(a.w2, b.w2),
        w3: sets::less(a.w3, b.w3),
    }
}

pub fn is_empty(s: Set) -> bool
    ensures { result ≡ eqb (number s) 0 }
{
    s.w3 | s.w2 | s.w1 | s.w0 == 0
}

// The word of the digits 64 i to 64 i + 63.
pub fn word(s: Set, i: usize) -> u64
    ensures { result ≡ get_or (words_of s) i 0 }
{
    match i {
        0 => s.w0,
        1 => s.w1,
        2 => s.w2,
        3 => s.w3,
        _ => 0,
    }
}

pub fn member(s: Set, e: usize) -> bool
    ensures { result ≡ has (number s) e }
{
    sets::member(word(s, e / 64), e % 64)
}

pub fn one(e: usize) -> Set
    requires { e < max_events }
    ensures { number result ≡ only e }
{
    let bit = sets::one(e % 64);
    match e / 64 {
        0 => Set {
            w0: bit,
            w1: 0,
            w2: 0,
            w3: 0,
        },
        1 => Set {
            w0: 0,
            w1: bit,
            w2: 0,
            w3: 0,
        },
        2 => Set {
            w0: 0,
            w1: 0,
            w2: bit,
            w3: 0,
        },
        _ => Set {
            w0: 0,
            w1: 0,
            w2: 0,
            w3: bit,
        },
    }
}

pub fn put_if(s: Set, e: usize, on: bool) -> Set
    requires { e < max_events }
    ensures { number result ≡ put_if (number s) e on }
{
    if on {
        return join(s, one(e));
    }
    s
}

// Most words of most sets are empty, and counting digits takes a dozen steps where the processor has no instruction for it.
fn word_count(w: u64) -> u32
    ensures { (result ≡ size w) × (result ≤ 64) }
{
    if w == 0 {
        return 0;
    }
    u64::count_ones(w)
}

fn word_least(w: u64) -> u32
    ensures { (result ≡ lowest 64 w) × (result ≤ 64) }
{
    u64::trailing_zeros(w)
}

pub fn count(s: Set) -> u32
    ensures { result ≡ size (number s) }
{
    word_count(s.w3) + word_count(s.w2) + word_count(s.w1) + word_count(s.w0)
}

// The lowest member, MAX_EVENTS where there is none.
pub fn least(s: Set) -> u32
    ensures { result ≡ lowest max_events (number s) }
{
    if s.w0 != 0 {
        return word_least(s.w0);
    }
    if s.w1 != 0 {
        return word_least(s.w1) + 64;
    }
    if s.w2 != 0 {
        return word_least(s.w2) + 128;
    }
    word_least(s.w3) + 192
}

// A word's part of all below n, the word's digits being those from `from` on.
fn word_below(n: usize, from: usize) -> u64
    ensures { result ≡ all_below (min (n - from) 64) }
{
    if n <= from {
        return 0;
    }
    if n - from < 64 {
        return sets::all_below(n - from);
    }
    sets::all_below(64)
}

pub fn all_below(n: usize) -> Set
    requires { n ≤ max_events }
    ensures { number result ≡ all_below n }
{
    Set {
        w0: word_below(n, 0),
        w1: word_below(n, 64),
        w2: word_below(n, 128),
        w3: word_below(n, 192),
    }
}

// Whether every member of s is below n.
pub fn inside(s: Set, n: usize) -> bool
    ensures { result ≡ within n (number s) }
{
    if MAX_EVENTS <= n {
        return true;
    }
    is_empty(less(s, all_below(n)))
}

// Row e of any table.
pub fn row_in(table: &[u64], e: usize) -> Set
    requires { e * 4 + 4 ≤ length table.now }
    ensures { number result ≡ row_of table.now e }
{
    let at = e * SET_WORDS;
    Set {
        w0: table[at],
        w1: table[at + 1],
        w2: table[at + 2],
        w3: table[at + 3],
    }
}

// Row e of a table.
pub fn row(table: &[u64; TABLE], e: usize) -> Set
    requires { e < max_events }
    ensures { number result ≡ get_or (rows_of table.now) e 0 }
{
    row_in(table, e)
}

// Row e of any table becomes s: `rows-put` says what that is to the rows as numbers.
pub fn put_row(table: &mut [u64], e: usize, s: Set)
    requires { e * 4 + 4 ≤ length table.old }
    ensures { table.new ≡ put_row table.old e s }
{
    let to = e * SET_WORDS;
    table[to] = s.w0;
    table[to + 1] = s.w1;
    table[to + 2] = s.w2;
    table[to + 3] = s.w3;
}

// Row e of a table takes in s: rows lent as an array, the work done on slices.
pub fn join_row(table: &mut [u64; TABLE], e: usize, s: Set)
    requires { e < max_events }
    ensures { rows_of table.new ≡ set (rows_of table.old) e (union (get_or (rows_of table.old) e 0) (number s)) }
{
    let all = join(row_in(table, e), s);
    put_row(table, e, all);
}

// Row e of a table becomes s.
pub fn set_row(table: &mut [u64; TABLE], e: usize, s: Set)
    requires { e < max_events }
    ensures { rows_of table.new ≡ set (rows_of table.old) e (number s) }
{
    put_row(table, e, s);
}
