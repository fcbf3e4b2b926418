// Steps and deriving: the mortgage application's run of document 000, section 2, P8, and the room of a book.
use crate::show;
use flat_chart::FlatChart;
use graph::Marking;
use std::io;

// The chart names no roles, so any may.
const ROLE: u32 = 0;

// The step is taken, and then so many events are open, the lowest first.
fn step(
    rt: &impl Print,
    name: &[u8],
    chart: FlatChart,
    marking: Marking,
    event: u32,
) -> io::Result<Marking> {
    let taken = marking.execute(chart, event, ROLE);
    let open = taken.marking.count_open(chart);
    show::counted(rt, name, taken.answer, open.count, open.lowest)?;
    Ok(taken.marking)
}

// The document's six steps are seven executions, since its second executes two events.
fn mortgage(rt: &impl Print) -> io::Result<()> {
    let read = chart::read(
        b"\x08\x00\x0E\x00\x08\x00\x28\x00\xFF\xFF\x04\x00\xFF\xFF\x04\x00\xFF\xFF\x00\x00\xFF\xFF\x04\x00\xFF\xFF\x04\x00\xFF\xFF\x04\x00\xFF\xFF\x06\x00\xFF\xFF\x06\x00\x05\x00\x06\x00\x00\x00\x05\x00\x06\x00\x01\x00\x05\x00\x07\x00\x01\x00\x06\x00\x07\x00\x02\x00\x06\x00\x07\x00\x01\x00\x00\x00\x07\x00\x00\x00\x04\x00\x07\x00\x00\x00\x03\x00\x07\x00\x00\x00\x04\x00\x03\x00\x04\x00\x03\x00\x04\x00\x04\x00\x01\x00\x04\x00\x04\x00\x01\x00\x03\x00\x03\x00\x01\x00\x02\x00\x03\x00\x02\x00\x03\x00\x00\x00",
    );
    let chart = read.chart;
    let start = read.marking.count_open(chart);
    show::counted(
        rt,
        b"mortgage-start",
        start.answer,
        start.count,
        start.lowest,
    )?;
    let irregular = step(
        rt,
        b"mortgage-irregular-neighbourhood",
        chart,
        read.marking,
        1,
    )?;
    let appointed = step(rt, b"mortgage-make-appointment", chart, irregular, 2)?;
    let appraised = step(rt, b"mortgage-on-site-appraisal", chart, appointed, 3)?;
    show::line(
        rt,
        b"mortgage-assess-too-soon",
        appraised.execute(chart, 7, ROLE).answer,
    )?;
    let collected = step(rt, b"mortgage-collect-documents", chart, appraised, 0)?;
    show::line(
        rt,
        b"mortgage-assess-unscreened",
        collected.execute(chart, 7, ROLE).answer,
    )?;
    let submitted = step(rt, b"mortgage-submit-budget", chart, collected, 5)?;
    let screened = step(rt, b"mortgage-approve-screening", chart, submitted, 6)?;
    show::told(rt, b"mortgage-unfinished", screened.finished(chart).yes)?;
    let assessed = step(rt, b"mortgage-assess", chart, screened, 7)?;
    show::told(rt, b"mortgage-finished", assessed.finished(chart).yes)
}

// P8: event 2 includes 0 and 1 and excludes 0. Inclusion wins: afterwards all three are open. Its completion has two rules on what is
// included, so that the book has 14 rules and takes 202 bytes.
fn both(rt: &impl Print) -> io::Result<()> {
    let read = chart::read(
        b"\x04\x00\x02\x00\x08\x00\x18\x00\xFF\xFF\x00\x00\x00\x00\x04\x00\x00\x00\x04\x00\xFF\xFF\x04\x00\x03\x00\x00\x00\x03\x00\x03\x00\x01\x00\x04\x00",
    );
    let chart = read.chart;
    show::sets(
        rt,
        b"p8-includes-excludes",
        read.answer,
        wide::row(&chart.includes, 2),
        wide::row(&chart.excludes, 2),
    )?;
    let taken = step(rt, b"p8-step", chart, read.marking, 2)?;
    show::sets(
        rt,
        b"p8-included-before-after",
        read.answer,
        read.marking.included,
        taken.included,
    )?;
    let mut short = [0u8; 201];
    show::line(rt, b"p8-book", deriver::derive(chart, &mut short))
}

// The paper's chart needs 162 bytes.
fn room(rt: &impl Print) -> io::Result<()> {
    let read = chart::read(
        b"\x02\x00\x03\x00\x08\x00\x10\x00\xFF\xFF\x04\x00\xFF\xFF\x06\x00\x00\x00\x01\x00\x00\x00\x00\x00\x01\x00\x01\x00\x01\x00\x00\x00\x04\x00",
    );
    let mut short = [0u8; 161];
    show::line(
        rt,
        b"derive-one-byte-too-few",
        deriver::derive(read.chart, &mut short),
    )?;
    let mut exact = [0u8; 162];
    show::line(
        rt,
        b"derive-exactly-enough",
        deriver::derive(read.chart, &mut exact),
    )?;
    let mut none = [0u8; 1];
    show::line(
        rt,
        b"derive-unfit",
        deriver::derive(FlatChart::empty(), &mut none),
    )
}

pub fn run(rt: &impl Print) -> io::Result<()> {
    mortgage(rt)?;
    both(rt)?;
    room(rt)
}
