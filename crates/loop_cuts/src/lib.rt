// The loops of parents, found by one walk over the nodes: which nodes are the lowest of their loop.
#![tactic(auto)]

ghost use Rattle.std.specs.Prelude.{◌<◌};
ghost use Rattle.nesting.specs.Nesting.{OnLoop};
ghost use Rattle.loop_cuts.specs.Walking.{Stamps, ClimbedTo, LowestCut};
ghost use Rattle.loop_cuts.specs.Round.{LowestRound};

use paper::MAX_NODES;
use records::ChartImage;

// Stamps the nodes from a upwards that have no stamp yet; the node where that meets its own stamp, which lies on a loop.
fn climb(image: ChartImage<'_>, stamps: &mut [u16; MAX_NODES], a: usize) -> Option<usize>
    requires { (a < image.nodes) × Stamps image.bytes.now image.nodes a stamps.old }
    ensures { ClimbedTo image.entry.bytes.now image.entry.nodes a stamps.old stamps.new result }
{
    let stamp = a as u16 + 1;
    let mut c = a;
    while c < image.nodes {
        if stamps[c] == stamp {
            return Some(c);
        }
        if stamps[c] != 0 {
            return None;
        }
        stamps[c] = stamp;
        c = image.parent_of(c) as usize;
    }
    None
}

// Once round the loop of the node met: its lowest node.
fn lowest_round(image: ChartImage<'_>, met: usize) -> usize
    requires { OnLoop image.bytes.now met }
    ensures { LowestRound image.entry.bytes.now met result }
{
    let mut low = met;
    let mut c = image.parent_of(met) as usize;
    while c != met {
        low = low.min(c);
        c = image.parent_of(c) as usize;
    }
    low
}

// Which nodes are the lowest of their loop. Each node is stamped once, and each loop gone round once.
pub fn lowest_of_loops(image: ChartImage<'_>) -> [bool; MAX_NODES]
    ensures { LowestCut image.entry.bytes.now image.entry.nodes result }
{
    let mut cut = [false; MAX_NODES];
    let mut stamps = [0u16; MAX_NODES];
    for start in 0..image.nodes {
        if let Some(met) = climb(image, &mut stamps, start) {
            let low = lowest_round(image, met);
            cut[low] = true;
        }
    }
    cut
}
