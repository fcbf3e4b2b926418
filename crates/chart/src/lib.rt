// Reading a chart image: the flat chart and the start marking, or a refusal.
#![tactic(auto)]

ghost use Rattle.std.specs.Prelude.{◌≡◌};
ghost use Rattle.paper.specs.Answers.{granted};
ghost use Rattle.paper.specs.Refusals.{answered};
ghost use Rattle.flat_chart.specs.Numbers.{flat_of};
ghost use Rattle.flat_chart.specs.Chart.{empty_chart};
ghost use Rattle.graph.specs.Numbers.{marks_of};
ghost use Rattle.flattening.specs.Flattening.{flat_chart, start_marking};
ghost use Rattle.chart.specs.Numbers.{reading_of};
ghost use Rattle.chart.specs.Reading.{refused, reading_relations, reading_nodes, reading};
ghost use Rattle.chart.specs.Outcome.{HeaderRight};
ghost use Rattle.chart.specs.Headed.{Headed, Judged};

use flat_chart::FlatChart;
use flattening::{Kind, Layout, NODE_TABLE};
use graph::Marking;
use paper::{Answer, CHART_HEADER, MAX_EVENTS, MAX_NODES, Refusal};
use records::ChartImage;

#[repr(C)]
#[derive(Clone, Copy)]
pub struct Reading {
    pub answer: Answer,
    pub chart: FlatChart,
    pub marking: Marking,
}

// 1 to 3, or the image with its counts.
pub fn headed(bytes: &[u8]) -> Result<ChartImage<'_>, Refusal>
    ensures { Headed bytes.now result }
{
    if bytes.len() < CHART_HEADER {
        return Err(Refusal::ChartShort);
    }
    if records::out_of_range(bytes) {
        return Err(Refusal::ChartCount);
    }
    let nodes = records::node_count(bytes);
    let relations = records::relation_count(bytes);
    if records::misplaced(bytes, nodes, relations) {
        return Err(Refusal::ChartLength);
    }
    Ok(ChartImage {
        bytes,
        nodes,
        relations,
    })
}

// 8, or granted.
fn judge_relations(image: ChartImage<'_>) -> Result<(), Refusal>
    ensures { answered result ≡ (reading_relations image.entry.bytes.now).answer }
{
    match image.first_bad_relation() {
        Some(bad) => Err(Refusal::BadRelation(bad as u32)),
        None => Ok(()),
    }
}

// 4 to 7, and what follows.
fn judge_nodes(image: ChartImage<'_>) -> Result<(), Refusal>
    ensures { answered result ≡ (reading_nodes image.entry.bytes.now).answer }
{
    if let Some(bad) = image.first_bad_node() {
        return Err(Refusal::BadNode(bad as u32));
    }
    if let Some(looped) = nesting::lowest_on_loop(image) {
        return Err(Refusal::ParentsLoop(looped as u32));
    }
    let groups = nesting::groups_of(image);
    if let Some(flagged) = nesting::first_flagged_group(image, &groups) {
        return Err(Refusal::GroupFlags(flagged as u32));
    }
    let events = nesting::count_events(&groups, image.nodes);
    if MAX_EVENTS < events {
        return Err(Refusal::ManyEvents(events as u32));
    }
    judge_relations(image)
}

// The refusal that comes first, or the image, which reading accepts.
fn judge(bytes: &[u8]) -> Result<ChartImage<'_>, Refusal>
    ensures { Judged bytes.now result }
{
    let image = headed(bytes)?;
    judge_nodes(image)?;
    Ok(image)
}

// The flat chart into an empty one. The two tables of a set for each node are made once and lent.
fn put_chart(layout: Layout<'_>, chart: &mut FlatChart)
    requires { flat_of chart.old ≡ empty_chart }
    ensures { flat_of chart.new ≡ flat_chart layout.entry.image.bytes.now }
{
    let mut below = [0u64; NODE_TABLE];
    layout.put_members(&mut below);
    let mut room = [0u64; NODE_TABLE];
    layout.put_table(&below, &mut room, Kind::Condition, &mut chart.conditions);
    layout.put_table(&below, &mut room, Kind::Response, &mut chart.responses);
    layout.put_table(&below, &mut room, Kind::Milestone, &mut chart.milestones);
    layout.put_table(&below, &mut room, Kind::Include, &mut chart.includes);
    layout.put_table(&below, &mut room, Kind::Exclude, &mut chart.excludes);
    layout.put_roles(&mut chart.roles);
    chart.count = layout.events as u32;
}

fn start_marking(layout: Layout<'_>) -> Marking
    ensures { marks_of result ≡ start_marking layout.entry.image.bytes.now }
{
    Marking {
        executed: layout.flagged(0),
        pending: layout.flagged(1),
        included: layout.flagged(2),
    }
}

// What an image that is accepted gives, into a reading that is still empty.
fn fill(image: ChartImage<'_>, out: &mut Reading)
    requires { (granted ≡ (reading image.bytes.now).answer) × (reading_of out.old ≡ refused granted) }
    ensures { reading_of out.new ≡ reading image.entry.bytes.now }
{
    let groups = nesting::groups_of(image);
    let events = nesting::count_events(&groups, image.nodes);
    let nodes = nesting::event_nodes(&groups, image.nodes);
    let mut order = [0u16; MAX_NODES];
    let placed = flattening::order::put_order(image, &mut order);
    let layout = Layout {
        image,
        nodes: &nodes,
        events,
        order: &order,
        groups: placed,
    };
    put_chart(layout, &mut out.chart);
    out.marking = start_marking(layout);
}

// The flat chart and the start marking of an image, or the refusal that comes first, into a reading that is still empty. There it stays: a caller that hands it back by
// value holds it once on its stack.
// Cost: some passes over the nodes, six over the relations, and seven over the groups in their order: no event is climbed from.
// Stack: about 40 KiB, of which the two tables of a set for each node take 32.
pub fn read_into(image: &[u8], out: &mut Reading)
    requires { reading_of out.old ≡ refused granted }
    ensures { reading_of out.new ≡ reading image.now }
{
    match judge(image) {
        Ok(accepted) => fill(accepted, out),
        Err(refusal) => out.answer = Answer::from(refusal),
    }
}

// The same, handed back. Stack: 41 KiB more.
pub fn read(image: &[u8]) -> Reading
    ensures { reading_of result ≡ reading image.now }
{
    let mut out = Reading::empty();
    read_into(image, &mut out);
    out
}

impl Reading {
    // What a reading is written into.
    pub fn empty() -> Reading
        ensures { reading_of result ≡ refused granted }
    {
        Reading {
            answer: paper::granted(),
            chart: FlatChart::empty(),
            marking: Marking::empty(),
        }
    }
}
