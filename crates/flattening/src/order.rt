// Groups in an order in which each stands behind its parent: what stands above is then handed on in one pass, and what lies below in one pass back.
ghost use Rattle.std.specs.Prelude.{◌≡◌, ◌+◌, ◌≤◌, length};
ghost use Rattle.paper.specs.Limits.{max_nodes};
ghost use Rattle.nesting.specs.Climbing.{Straight};
ghost use Rattle.flattening.specs.Order.{Found, Appended, Ordered};

use paper::MAX_NODES;
use records::ChartImage;

// The nodes from i upwards that have no mark yet, into the path from its start; each gets its mark. How many they are.
fn climb(
    image: ChartImage<'_>,
    placed: &mut [bool; MAX_NODES],
    path: &mut [u16; MAX_NODES],
    i: usize,
) -> usize
    requires { Straight image.bytes.now }
    ensures { Found image.entry.bytes.now image.entry.nodes placed.old i placed.new path.new result }
{
    let mut count: usize = 0;
    let mut c = i;
    while c < image.nodes {
        if placed[c] {
            return count;
        }
        placed[c] = true;
        path[count] = c as u16;
        count += 1;
        c = image.parent_of(c) as usize;
    }
    count
}

// The path's nodes behind the first m of the order, the last one first.
fn append(order: &mut [u16; MAX_NODES], m: usize, path: &[u16; MAX_NODES], count: usize)
    requires { m + count ≤ max_nodes }
    ensures { Appended order.old path.now m count count order.new }
{
    for j in 0..count {
        order[m + j] = path[count - 1 - j];
    }
}

// Every group, each behind its parent; how many they are. Each is climbed over once.
pub fn put_order(image: ChartImage<'_>, order: &mut [u16; MAX_NODES]) -> usize
    requires { Straight image.bytes.now }
    ensures { Ordered image.entry.bytes.now order.new result }
{
    let mut placed = [false; MAX_NODES];
    let mut path = [0u16; MAX_NODES];
    let mut m: usize = 0;
    for a in 0..image.nodes {
        let parent = image.parent_of(a) as usize;
        let count = climb(image, &mut placed, &mut path, parent);
        append(order, m, &path, count);
        m += count;
    }
    m
}
