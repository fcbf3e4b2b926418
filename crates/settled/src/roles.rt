// Roles: a step by a role that the event or a group above it names, by one that none names, and where 32 stands among the codes.
use crate::show;
use flat_chart::FlatChart;
use graph::Marking;
use std::io;

fn step(
    rt: &impl Print,
    name: &[u8],
    chart: FlatChart,
    marking: Marking,
    event: u32,
    role: u32,
) -> io::Result<()> {
    show::line(rt, name, marking.execute(chart, event, role).answer)
}

// Group 0 names role 0, its member, group 1, none, and the event in that role 5; event 1 names none; event 2 names role 1 and is not included.
fn steps(rt: &impl Print) -> io::Result<()> {
    let read = chart::read(
        b"\x05\x00\x00\x00\x08\x00\x1C\x00\xFF\xFF\x00\x01\x00\x00\x00\x00\x01\x00\x04\x20\xFF\xFF\x04\x00\xFF\xFF\x00\x02",
    );
    let chart = read.chart;
    show::counted(
        rt,
        b"roles-of-event-0",
        read.answer,
        chart.count,
        chart.roles[0] as u32,
    )?;
    step(rt, b"roles-its-own", chart, read.marking, 0, 5)?;
    step(rt, b"roles-two-groups-up", chart, read.marking, 0, 0)?;
    step(rt, b"roles-not-named", chart, read.marking, 0, 3)?;
    step(rt, b"roles-open-to-7", chart, read.marking, 1, 7)?;
    step(rt, b"roles-not-to-8", chart, read.marking, 1, 8)?;
    step(rt, b"roles-not-to-256", chart, read.marking, 0, 256)?;
    step(rt, b"roles-before-not-included", chart, read.marking, 2, 0)?;
    step(rt, b"roles-then-not-included", chart, read.marking, 2, 1)?;
    step(rt, b"roles-no-such-event-first", chart, read.marking, 3, 8)
}

// A role byte past the count.
fn past(rt: &impl Print) -> io::Result<()> {
    let mut chart = FlatChart::empty();
    chart.count = 1;
    chart.roles[0] = 255;
    step(
        rt,
        b"roles-of-the-last-event",
        chart,
        Marking::empty(),
        0,
        7,
    )?;
    chart.roles[1] = 1;
    step(rt, b"roles-past-the-count", chart, Marking::empty(), 0, 7)
}

fn flags(rt: &impl Print) -> io::Result<()> {
    // node 0 names role 0 and has the flags 8
    let lower = chart::read(b"\x01\x00\x00\x00\x08\x00\x0C\x00\xFF\xFF\x08\x01");
    show::line(rt, b"roles-and-flags-8", lower.answer)?;
    // node 0 names all roles and has all flags
    let all = chart::read(b"\x01\x00\x00\x00\x08\x00\x0C\x00\xFF\xFF\x07\xFF");
    show::line(rt, b"roles-and-all-flags", all.answer)?;
    // node 1 is the parent of 0, names role 0 and has a flag
    let group = chart::read(b"\x02\x00\x00\x00\x08\x00\x10\x00\x01\x00\x04\x00\xFF\xFF\x04\x01");
    show::line(rt, b"roles-and-group-flags", group.answer)
}

pub fn run(rt: &impl Print) -> io::Result<()> {
    steps(rt)?;
    past(rt)?;
    flags(rt)
}
