// Decoding the fields of a request: flat charts, markings, snapshots, numbers.
ghost use Rattle.std.specs.Prelude.{◌+◌, ◌*◌, ◌≤◌, length};
ghost use Rattle.paper.specs.Limits.{max_events};
ghost use Rattle.vectors.specs.Sizes.{set_bytes, table_bytes, flat_bytes, marking_bytes, snapshot_bytes};

use book::Snapshot;
use flat_chart::FlatChart;
use graph::Marking;
use paper::{MAX_EVENTS, MAX_MARKS};
use wide::{SET_WORDS, Set, TABLE};

// Bytes of a set, of a table, of a flat chart, of a marking and of a snapshot.
const SET: usize = 8 * SET_WORDS;

const SETS: usize = 8 * TABLE;

pub const FLAT: usize = 4 + 5 * SETS + MAX_EVENTS;

pub const MARKING: usize = 3 * SET;

pub const SNAPSHOT: usize = MAX_MARKS / 8;

fn paired(low: u32, high: u32) -> u64 {
    low as u64 | (high as u64) << 32
}

fn u64_at(body: &[u8], at: usize) -> u64
    requires { at + 8 ≤ length body.now }
{
    paired(wire::u32_at(body, at), wire::u32_at(body, at + 4))
}

fn set_at(body: &[u8], at: usize) -> Set
    requires { at + set_bytes ≤ length body.now }
{
    Set {
        w0: u64_at(body, at),
        w1: u64_at(body, at + 8),
        w2: u64_at(body, at + 16),
        w3: u64_at(body, at + 24),
    }
}

fn table_at(body: &[u8], at: usize) -> [u64; TABLE]
    requires { at + table_bytes ≤ length body.now }
{
    let mut table = [0u64; TABLE];
    let mut i = 0;
    while i < TABLE {
        table[i] = u64_at(body, at + 8 * i);
        i += 1;
    }
    table
}

fn roles_at(body: &[u8], at: usize) -> [u8; MAX_EVENTS]
    requires { at + max_events ≤ length body.now }
{
    let mut roles = [0u8; MAX_EVENTS];
    let mut e = 0;
    while e < MAX_EVENTS {
        roles[e] = body[at + e];
        e += 1;
    }
    roles
}

// The count, the five tables and the role bytes.
pub fn chart_at(body: &[u8], at: usize) -> FlatChart
    requires { at + flat_bytes ≤ length body.now }
{
    FlatChart {
        count: wire::u32_at(body, at),
        conditions: table_at(body, at + 4),
        responses: table_at(body, at + 4 + SETS),
        milestones: table_at(body, at + 4 + 2 * SETS),
        includes: table_at(body, at + 4 + 3 * SETS),
        excludes: table_at(body, at + 4 + 4 * SETS),
        roles: roles_at(body, at + 4 + 5 * SETS),
    }
}

pub fn marking_at(body: &[u8], at: usize) -> Marking
    requires { at + marking_bytes ≤ length body.now }
{
    Marking {
        executed: set_at(body, at),
        pending: set_at(body, at + SET),
        included: set_at(body, at + 2 * SET),
    }
}

pub fn widened(b: u8) -> u64 {
    b as u64
}

// Mark m is bit m % 8 of byte m / 8.
pub fn snapshot_at(body: &[u8], at: usize) -> Snapshot
    requires { at + snapshot_bytes ≤ length body.now }
{
    let mut marks = [false; MAX_MARKS];
    let mut m = 0;
    while m < MAX_MARKS {
        marks[m] = sets::member(widened(body[at + m / 8]), m % 8);
        m += 1;
    }
    Snapshot { marks }
}

// The n numbers of an order, a list or a record, put at the start of the room.
pub fn numbers_at(body: &[u8], at: usize, n: usize, room: &mut [u32])
    requires { (n ≤ length room.old) × (at + 4 * n ≤ length body.now) }
{
    let mut i = 0;
    while i < n {
        room[i] = wire::u32_at(body, at + 4 * i);
        i += 1;
    }
}
