// The controller's C interface: the public calls under C names, and nothing else. A chart comes as its count and its tables, lent, so that
// no call copies it.
#![tactic(auto)]

ghost use Rattle.std.specs.Prelude.{◌≡◌, length};
ghost use Rattle.wide.specs.Number.{rows_of};
ghost use Rattle.flat_chart.specs.Chart.{chart_of};
ghost use Rattle.graph.specs.Numbers.{marks_of, test_of, step_of};
ghost use Rattle.graph.specs.Steps.{opening, executing, counting, finishing};
ghost use Rattle.chart.specs.Numbers.{reading_of};
ghost use Rattle.chart.specs.Reading.{reading};
ghost use Rattle.replay.specs.Numbers.{replayed_of, struck_of};
ghost use Rattle.replay.specs.Replaying.{replaying, striking};
ghost use Rattle.deriver.specs.Deriving.{deriving_answer, derived_room};
ghost use Rattle.deriver.specs.Matching.{matching_of};
ghost use Rattle.smaller_deriver.specs.Calling.{deriving_smaller, smaller_room};
ghost use Rattle.judge.specs.Checking.{checking, checked_room};
ghost use Rattle.runner.specs.Completing.{completing};
ghost use Rattle.index_builder.specs.Building.{building, built_room};
ghost use Rattle.indexed.specs.Indexed.{completing_indexed};
ghost use Rattle.indexed_list.specs.InList.{completing_list};
ghost use Rattle.read_back.specs.Numbers.{back_of};
ghost use Rattle.read_back.specs.ReadingBack.{reading_back};
ghost use Rattle.mend.specs.Calling.{mending, mended_room, changes_room};

use book::Snapshot;
use chart::Reading;
use deriver::Matched;
use flat_chart::LentChart;
use graph::Marking;
use graph::steps::{Finished, OpenCount, OpenTest, Step};
use indexed::IndexedCompletion;
use indexed_list::ListCompletion;
use mend::Mended;
use paper::{Answer, MAX_EVENTS};
use read_back::ReadBack;
use replay::{Replayed, Struck};
use runner::Completion;
use smaller_deriver::Smaller;
use wide::TABLE;

#[unsafe(no_mangle)]
pub extern "C" fn ozhimka_read_chart(image: &[u8]) -> Reading
    ensures { reading_of result ≡ reading image.now }
{
    let mut out = Reading::empty();
    chart::read_into(image, &mut out);
    out
}

#[unsafe(no_mangle)]
pub extern "C" fn ozhimka_execute_in<'a>(
    count: u32,
    conditions: &'a [u64; TABLE],
    responses: &'a [u64; TABLE],
    milestones: &'a [u64; TABLE],
    includes: &'a [u64; TABLE],
    excludes: &'a [u64; TABLE],
    roles: &'a [u8; MAX_EVENTS],
    marking: Marking,
    event: u32,
    role: u32,
) -> Step
    ensures { step_of result ≡ executing (chart_of count (rows_of conditions.now) (rows_of responses.now) (rows_of milestones.now) (rows_of includes.now) (rows_of excludes.now) roles.now) (marks_of marking) event role }
{
    let chart = LentChart {
        count,
        conditions,
        responses,
        milestones,
        includes,
        excludes,
        roles,
    };
    marking.execute_in(chart, event, role)
}

#[unsafe(no_mangle)]
pub extern "C" fn ozhimka_open_test_in<'a>(
    count: u32,
    conditions: &'a [u64; TABLE],
    responses: &'a [u64; TABLE],
    milestones: &'a [u64; TABLE],
    includes: &'a [u64; TABLE],
    excludes: &'a [u64; TABLE],
    roles: &'a [u8; MAX_EVENTS],
    marking: Marking,
    tested: u32,
) -> OpenTest
    ensures { test_of result ≡ opening (chart_of count (rows_of conditions.now) (rows_of responses.now) (rows_of milestones.now) (rows_of includes.now) (rows_of excludes.now) roles.now) (marks_of marking) tested }
{
    let chart = LentChart {
        count,
        conditions,
        responses,
        milestones,
        includes,
        excludes,
        roles,
    };
    marking.open_test_in(chart, tested)
}

#[unsafe(no_mangle)]
pub extern "C" fn ozhimka_count_open_in<'a>(
    count: u32,
    conditions: &'a [u64; TABLE],
    responses: &'a [u64; TABLE],
    milestones: &'a [u64; TABLE],
    includes: &'a [u64; TABLE],
    excludes: &'a [u64; TABLE],
    roles: &'a [u8; MAX_EVENTS],
    marking: Marking,
) -> OpenCount
    ensures { result ≡ counting (chart_of count (rows_of conditions.now) (rows_of responses.now) (rows_of milestones.now) (rows_of includes.now) (rows_of excludes.now) roles.now) (marks_of marking) }
{
    let chart = LentChart {
        count,
        conditions,
        responses,
        milestones,
        includes,
        excludes,
        roles,
    };
    marking.count_in(chart)
}

#[unsafe(no_mangle)]
pub extern "C" fn ozhimka_finished_in<'a>(
    count: u32,
    conditions: &'a [u64; TABLE],
    responses: &'a [u64; TABLE],
    milestones: &'a [u64; TABLE],
    includes: &'a [u64; TABLE],
    excludes: &'a [u64; TABLE],
    roles: &'a [u8; MAX_EVENTS],
    marking: Marking,
) -> Finished
    ensures { result ≡ finishing (chart_of count (rows_of conditions.now) (rows_of responses.now) (rows_of milestones.now) (rows_of includes.now) (rows_of excludes.now) roles.now) (marks_of marking) }
{
    let chart = LentChart {
        count,
        conditions,
        responses,
        milestones,
        includes,
        excludes,
        roles,
    };
    marking.finished_in(chart)
}

#[unsafe(no_mangle)]
pub extern "C" fn ozhimka_matching_in<'a>(
    count: u32,
    conditions: &'a [u64; TABLE],
    responses: &'a [u64; TABLE],
    milestones: &'a [u64; TABLE],
    includes: &'a [u64; TABLE],
    excludes: &'a [u64; TABLE],
    roles: &'a [u8; MAX_EVENTS],
    marking: Marking,
) -> Matched
    ensures { result ≡ matching_of (chart_of count (rows_of conditions.now) (rows_of responses.now) (rows_of milestones.now) (rows_of includes.now) (rows_of excludes.now) roles.now) (marks_of marking) }
{
    let chart = LentChart {
        count,
        conditions,
        responses,
        milestones,
        includes,
        excludes,
        roles,
    };
    deriver::marks::matching_in(marking, chart)
}

#[unsafe(no_mangle)]
pub extern "C" fn ozhimka_derive_in<'a>(
    count: u32,
    conditions: &'a [u64; TABLE],
    responses: &'a [u64; TABLE],
    milestones: &'a [u64; TABLE],
    includes: &'a [u64; TABLE],
    excludes: &'a [u64; TABLE],
    roles: &'a [u8; MAX_EVENTS],
    room: &mut [u8],
) -> Answer
    ensures { (result ≡ deriving_answer (chart_of count (rows_of conditions.now) (rows_of responses.now) (rows_of milestones.now) (rows_of includes.now) (rows_of excludes.now) roles.now) (length room.old)) × (room.new ≡ derived_room (chart_of count (rows_of conditions.now) (rows_of responses.now) (rows_of milestones.now) (rows_of includes.now) (rows_of excludes.now) roles.now) room.old) }
{
    let chart = LentChart {
        count,
        conditions,
        responses,
        milestones,
        includes,
        excludes,
        roles,
    };
    deriver::derive_in(chart, room)
}

#[unsafe(no_mangle)]
pub extern "C" fn ozhimka_derive_smaller_in<'a>(
    count: u32,
    conditions: &'a [u64; TABLE],
    responses: &'a [u64; TABLE],
    milestones: &'a [u64; TABLE],
    includes: &'a [u64; TABLE],
    excludes: &'a [u64; TABLE],
    roles: &'a [u8; MAX_EVENTS],
    start: Marking,
    room: &mut [u8],
) -> Smaller
    ensures { (result ≡ deriving_smaller (chart_of count (rows_of conditions.now) (rows_of responses.now) (rows_of milestones.now) (rows_of includes.now) (rows_of excludes.now) roles.now) (marks_of start) (length room.old)) × (room.new ≡ smaller_room (chart_of count (rows_of conditions.now) (rows_of responses.now) (rows_of milestones.now) (rows_of includes.now) (rows_of excludes.now) roles.now) (marks_of start) room.old) }
{
    let chart = LentChart {
        count,
        conditions,
        responses,
        milestones,
        includes,
        excludes,
        roles,
    };
    smaller_deriver::derive_smaller_in(start, chart, room)
}

// The record is event and role in turn.
#[unsafe(no_mangle)]
pub extern "C" fn ozhimka_replay_in<'a>(
    count: u32,
    conditions: &'a [u64; TABLE],
    responses: &'a [u64; TABLE],
    milestones: &'a [u64; TABLE],
    includes: &'a [u64; TABLE],
    excludes: &'a [u64; TABLE],
    roles: &'a [u8; MAX_EVENTS],
    start: Marking,
    recorded: &'a [u32],
) -> Replayed
    ensures { replayed_of result ≡ replaying (chart_of count (rows_of conditions.now) (rows_of responses.now) (rows_of milestones.now) (rows_of includes.now) (rows_of excludes.now) roles.now) (marks_of start) recorded.now }
{
    let chart = LentChart {
        count,
        conditions,
        responses,
        milestones,
        includes,
        excludes,
        roles,
    };
    replay::replay_in(chart, start, recorded)
}

#[unsafe(no_mangle)]
pub extern "C" fn ozhimka_strike_in<'a>(
    count: u32,
    conditions: &'a [u64; TABLE],
    responses: &'a [u64; TABLE],
    milestones: &'a [u64; TABLE],
    includes: &'a [u64; TABLE],
    excludes: &'a [u64; TABLE],
    roles: &'a [u8; MAX_EVENTS],
    start: Marking,
    recorded: &'a [u32],
    position: u32,
) -> Struck
    ensures { struck_of result ≡ striking (chart_of count (rows_of conditions.now) (rows_of responses.now) (rows_of milestones.now) (rows_of includes.now) (rows_of excludes.now) roles.now) (marks_of start) recorded.now position }
{
    let chart = LentChart {
        count,
        conditions,
        responses,
        milestones,
        includes,
        excludes,
        roles,
    };
    replay::strike_in(chart, start, recorded, position)
}

#[unsafe(no_mangle)]
pub extern "C" fn ozhimka_check(book: &[u8], stage: u32, room: &mut [u32]) -> Answer
    ensures { (result ≡ checking book.now stage (length room.old)) × (room.new ≡ checked_room book.now stage room.old) }
{
    judge::check(book, stage, room)
}

#[unsafe(no_mangle)]
pub extern "C" fn ozhimka_complete(
    book: &[u8],
    order: &[u32],
    snapshot: Snapshot,
    stage: u32,
) -> Completion
    ensures { result ≡ completing book.now order.now snapshot stage }
{
    runner::complete(book, order, snapshot, stage)
}

#[unsafe(no_mangle)]
pub extern "C" fn ozhimka_build_index(book: &[u8], room: &mut [u8]) -> Answer
    ensures { (result ≡ building book.now (length room.old)) × (room.new ≡ built_room book.now room.old) }
{
    index_builder::build(book, room)
}

#[unsafe(no_mangle)]
pub extern "C" fn ozhimka_complete_indexed(
    book: &[u8],
    index: &[u8],
    snapshot: Snapshot,
    stage: u32,
) -> IndexedCompletion
    ensures { result ≡ completing_indexed book.now index.now snapshot stage }
{
    indexed::complete(book, index, snapshot, stage)
}

#[unsafe(no_mangle)]
pub extern "C" fn ozhimka_complete_list(
    book: &[u8],
    index: &[u8],
    snapshot: Snapshot,
    list: &[u32],
) -> ListCompletion
    ensures { result ≡ completing_list book.now index.now snapshot list.now }
{
    indexed_list::complete_list(book, index, snapshot, list)
}

#[unsafe(no_mangle)]
pub extern "C" fn ozhimka_read_back(book: &[u8]) -> ReadBack
    ensures { back_of result ≡ reading_back book.now }
{
    let mut out = ReadBack::empty();
    read_back::read_back_into(book, &mut out);
    out
}

#[unsafe(no_mangle)]
pub extern "C" fn ozhimka_mend(image: &[u8], chart: &mut [u8], list: &mut [u8]) -> Mended
    ensures { (result ≡ mending image.now (length chart.old) (length list.old)) × (chart.new ≡ mended_room image.now chart.old list.old) × (list.new ≡ changes_room image.now chart.old list.old) }
{
    mend::mend(image, chart, list)
}
