// Operations 12 and 13: replaying a record, and replaying it without one step. `body` is all behind the operation.
use crate::{fields, rooms, show};
use fields::{FLAT, MARKING};
use replay::Replayed;
use show::LINE;
use std::io;

// Where the marking ends: after the chart.
const BEHIND: usize = FLAT + MARKING;

fn replayed_line(rt: &impl Print, line: &mut [u8; LINE], replayed: Replayed) -> io::Result<usize> {
    let at = show::answer(rt, line, b"replay", replayed.answer)?;
    let at = show::number(rt, line, at, replayed.steps)?;
    let at = show::number(rt, line, at, replayed.code as u64)?;
    let at = show::marking(rt, line, at, replayed.marking)?;
    let at = show::yes_or_no(rt, line, at, replayed.finished)?;
    show::blocking(rt, line, at, replayed.conditions, replayed.milestones)
}

// The record is event and role in turn, two numbers for each step.
pub fn replay(
    rt: &impl Print,
    body: &[u8],
    recorded: &mut [u32],
    line: &mut [u8; LINE],
) -> io::Result<usize> {
    if body.len() < BEHIND + 4 {
        return show::bad_request(rt, line);
    }
    let steps = wire::u32_at(body, BEHIND) as usize;
    if recorded.len() < 2 * steps {
        return show::bad_request(rt, line);
    }
    if body.len() < BEHIND + 4 + 8 * steps {
        return show::bad_request(rt, line);
    }
    let chart = fields::chart_at(body, 0);
    let marking = fields::marking_at(body, FLAT);
    fields::numbers_at(body, BEHIND + 4, 2 * steps, recorded);
    replayed_line(rt, line, rooms::replay(chart, marking, recorded, 2 * steps))
}

// The position stands before the record.
pub fn strike(
    rt: &impl Print,
    body: &[u8],
    recorded: &mut [u32],
    line: &mut [u8; LINE],
) -> io::Result<usize> {
    if body.len() < BEHIND + 8 {
        return show::bad_request(rt, line);
    }
    let steps = wire::u32_at(body, BEHIND + 4) as usize;
    if recorded.len() < 2 * steps {
        return show::bad_request(rt, line);
    }
    if body.len() < BEHIND + 8 + 8 * steps {
        return show::bad_request(rt, line);
    }
    let chart = fields::chart_at(body, 0);
    let marking = fields::marking_at(body, FLAT);
    let position = wire::u32_at(body, BEHIND);
    fields::numbers_at(body, BEHIND + 8, 2 * steps, recorded);
    let struck = rooms::strike(chart, marking, recorded, 2 * steps, position);
    let at = show::answer(rt, line, b"strike", struck.answer)?;
    let at = show::marking(rt, line, at, struck.marking)?;
    show::blocking(rt, line, at, struck.conditions, struck.milestones)
}
