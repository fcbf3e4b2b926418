// Request (xiii): a damaged chart is mended, and each change told.
#![tactic(auto)]

ghost use Rattle.std.specs.Prelude.{◌≡◌, length};
ghost use Rattle.mend.specs.Calling.{mending, mended_room, changes_room};
ghost use Rattle.mend.specs.Table.{Mendable};
ghost use Rattle.mend.specs.Returns.{Gives, mended_of};

use mend_writer::Repair;
use paper::{Answer, CHANGE_SIZE, CHART_HEADER, MAX_EVENTS, NODE_SIZE, RELATION_SIZE, Refusal};

// The number of entries is 0 where the call is refused.
#[repr(C)]
#[derive(Clone, Copy)]
pub struct Mended {
    pub answer: Answer,
    pub entries: u32,
}

// 37, or how many entries there are: then the chart and the list are written.
fn mend_into(repair: Repair<'_>, chart: &mut [u8], list: &mut [u8]) -> Result<u32, Refusal>
    requires { Mendable repair.image.bytes.now }
    ensures { Gives repair.entry.image.bytes.now chart.old list.old (mended_of result) chart.new list.new }
{
    let entries = repair.count_entries();
    let chart_need = CHART_HEADER + NODE_SIZE * repair.image.nodes + RELATION_SIZE * repair.left;
    let list_need = CHANGE_SIZE * entries;
    if chart.len() < chart_need || list.len() < list_need {
        return Err(Refusal::MendRoom(chart_need as u32, list_need as u32));
    }
    repair.put_chart(chart);
    repair.put_list(list);
    Ok(entries as u32)
}

// 1 to 3, 7, and what follows.
fn mend_judged(bytes: &[u8], chart: &mut [u8], list: &mut [u8]) -> Result<u32, Refusal>
    ensures { Gives bytes.now chart.old list.old (mended_of result) chart.new list.new }
{
    let image = chart::headed(bytes)?;
    let cut = loop_cuts::lowest_of_loops(image);
    let groups = mend_writer::groups_left(image, &cut);
    let events = nesting::count_events(&groups, image.nodes);
    if MAX_EVENTS < events {
        return Err(Refusal::ManyEvents(events as u32));
    }
    let repair = Repair {
        image,
        cut: &cut,
        groups: &groups,
        left: mend_writer::relations_left(image),
    };
    mend_into(repair, chart, list)
}

// Mends the chart into one room and writes each change into the other, or refuses and writes nothing.
// Cost: one walk over the nodes for the loops, some passes over the nodes, three over the relations. Stack: about 3 KiB.
pub fn mend(image: &[u8], chart: &mut [u8], list: &mut [u8]) -> Mended
    ensures { (result ≡ mending image.now (length chart.old) (length list.old)) × (chart.new ≡ mended_room image.now chart.old list.old) × (list.new ≡ changes_room image.now chart.old list.old) }
{
    match mend_judged(image, chart, list) {
        Ok(entries) => Mended {
            answer: paper::granted(),
            entries,
        },
        Err(refusal) => Mended {
            answer: Answer::from(refusal),
            entries: 0,
        },
    }
}
