// Reads a chart from standard input, mends it, and writes to standard output the answer's line, the mended chart's bytes and the list's bytes.
#![tactic(auto)]

ghost use Rattle.std.specs.Prelude.{◌≤◌, ◌≡◌, length, take};
ghost use Rattle.paper.specs.Limits.{chart_header};
ghost use Rattle.records.specs.Image.{nodes, relations, relation_at};
ghost use Rattle.mend.specs.Calling.{mended_image, list_bytes, mend_answer};

use paper::{
    Answer, CHANGE_SIZE, CHART_HEADER, MAX_NODES, MAX_RELATIONS, NODE_SIZE, RELATION_SIZE,
};

// The longest chart image; one byte more shows a longer input for what it is.
const CHART: usize = CHART_HEADER + NODE_SIZE * MAX_NODES + RELATION_SIZE * MAX_RELATIONS;

const INPUT: usize = CHART + 1;

// The longest list: an entry for each node at four steps, and one for each relation.
const LIST: usize = CHANGE_SIZE * (4 * MAX_NODES + MAX_RELATIONS);

// What mending gives, and how many bytes of each room it takes.
#[derive(Clone, Copy)]
struct Written {
    answer: Answer,
    entries: u32,
    chart: usize,
    list: usize,
}

// How long the chart is whose header the room begins with.
fn chart_length(room: &[u8]) -> usize
    requires { chart_header ≤ length room.now }
    ensures { result ≡ relation_at (nodes room.now) (relations room.now) }
{
    let n = wire::u16_at(room, 0);
    let k = wire::u16_at(room, 2);
    CHART_HEADER + NODE_SIZE * n as usize + RELATION_SIZE * k as usize
}

// The bytes counted are exactly the mended chart and the list.
fn mend_both(image: &[u8], chart: &mut [u8], list: &mut [u8]) -> Written
    requires { chart_header ≤ length chart.old }
    ensures answer_value { result.answer ≡ mend_answer image.now (length chart.old) (length list.old) }
    ensures chart_after { result.answer.code ≡ 0 → take result.chart chart.new ≡ mended_image image.now }
    ensures list_after { result.answer.code ≡ 0 → take result.list list.new ≡ list_bytes image.now }
    ensures chart_in_bounds { result.chart ≤ length chart.new }
    ensures list_in_bounds { result.list ≤ length list.new }
{
    let mended = mend::mend(image, chart, list);
    let answer = mended.answer;
    if answer.code != 0 {
        return Written {
            answer,
            entries: 0,
            chart: 0,
            list: 0,
        };
    }
    let entries = mended.entries;
    let bytes = chart_length(chart);
    Written {
        answer,
        entries,
        chart: bytes,
        list: CHANGE_SIZE * entries as usize,
    }
}

fn print_line(rt: &impl Print, answer: Answer, entries: u32) -> std::io::Result<()> {
    let mut buffer = [0u8; printing::ROOM];
    let a = printing::text(rt, &mut buffer, 0, b"mended")?;
    let b = printing::named(rt, &mut buffer, a, b" ", answer.code as u64)?;
    let c = printing::named(rt, &mut buffer, b, b" ", answer.place as u64)?;
    let d = printing::named(rt, &mut buffer, c, b" ", answer.other as u64)?;
    let e = printing::named(rt, &mut buffer, d, b" ", entries as u64)?;
    let at = printing::text(rt, &mut buffer, e, b"\n")?;
    printing::finish(rt, buffer, at)
}

// A read or a write that fails ends the program with its error.
fn main(rt: HostRuntime) -> std::io::Result<()> {
    let mut input = [0u8; INPUT];
    let n = printing::read_full(&mut rt.stdin(), &mut input)?;
    let mut chart = [0u8; CHART];
    let mut list = [0u8; LIST];
    let written = mend_both(&input[..n], &mut chart, &mut list);
    print_line(&rt, written.answer, written.entries)?;
    rt.write_all(&chart[..written.chart])?;
    rt.write_all(&list[..written.list])
}
