// Rooms that the calls write into or read from: the first part of a longer one, so long as a request says. What is written into is filled first.
ghost use Rattle.std.specs.Prelude.{◌≤◌, length};

use book::Snapshot;
use flat_chart::FlatChart;
use graph::Marking;
use indexed_list::ListCompletion;
use mend::Mended;
use paper::Answer;
use replay::{Replayed, Struck};
use runner::Completion;
use smaller_deriver::Smaller;

// What room is filled with before a call: the byte 165, and four of them.
const FILL: u8 = 165;

const FILL_NUMBER: u32 = 2779096485;

fn fill(room: &mut [u8], n: usize)
    requires { n ≤ length room.old }
{
    let mut i = 0;
    while i < n {
        room[i] = FILL;
        i += 1;
    }
}

fn fill_numbers(room: &mut [u32], n: usize)
    requires { n ≤ length room.old }
{
    let mut i = 0;
    while i < n {
        room[i] = FILL_NUMBER;
        i += 1;
    }
}

pub fn derive(chart: FlatChart, room: &mut [u8], n: usize) -> Answer
    requires { n ≤ length room.old }
{
    fill(room, n);
    deriver::derive(chart, &mut room[..n])
}

pub fn derive_smaller(chart: FlatChart, start: Marking, room: &mut [u8], n: usize) -> Smaller
    requires { n ≤ length room.old }
{
    fill(room, n);
    smaller_deriver::derive_smaller(chart, start, &mut room[..n])
}

pub fn check(book: &[u8], stage: u32, room: &mut [u32], n: usize) -> Answer
    requires { n ≤ length room.old }
{
    fill_numbers(room, n);
    judge::check(book, stage, &mut room[..n])
}

pub fn complete(book: &[u8], order: &[u32], n: usize, snapshot: Snapshot, stage: u32) -> Completion
    requires { n ≤ length order.now }
{
    runner::complete(book, &order[..n], snapshot, stage)
}

pub fn index(book: &[u8], room: &mut [u8], n: usize) -> Answer
    requires { n ≤ length room.old }
{
    fill(room, n);
    index_builder::build(book, &mut room[..n])
}

pub fn complete_list(
    book: &[u8],
    index: &[u8],
    snapshot: Snapshot,
    stages: &[u32],
    n: usize,
) -> ListCompletion
    requires { n ≤ length stages.now }
{
    indexed_list::complete_list(book, index, snapshot, &stages[..n])
}

pub fn replay(chart: FlatChart, marking: Marking, recorded: &[u32], n: usize) -> Replayed
    requires { n ≤ length recorded.now }
{
    replay::replay(chart, marking, &recorded[..n])
}

pub fn strike(
    chart: FlatChart,
    marking: Marking,
    recorded: &[u32],
    n: usize,
    position: u32,
) -> Struck
    requires { n ≤ length recorded.now }
{
    replay::strike(chart, marking, &recorded[..n], position)
}

pub fn mend(image: &[u8], chart: &mut [u8], n: usize, list: &mut [u8], m: usize) -> Mended
    requires { (n ≤ length chart.old) × (m ≤ length list.old) }
{
    fill(chart, n);
    fill(list, m);
    mend::mend(image, &mut chart[..n], &mut list[..m])
}
