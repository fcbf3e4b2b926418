// Charts: one case for each refusal of the reader, 256 events and 257, and the paper's whole chart.
ghost use Rattle.std.specs.Prelude.{◌≡◌, ◌≤◌, length};

use crate::show;
use std::io;

// An image of 257 nodes without parents.
const PLAIN: usize = 1036;

fn case(rt: &impl Print, name: &[u8], image: &[u8]) -> io::Result<()> {
    let reading = chart::read(image);
    show::line(rt, name, reading.answer)
}

// The header of so many nodes and no relation, and 257 nodes that are included events.
fn plain(events: usize) -> [u8; PLAIN]
    requires { events ≤ 257 }
    ensures { length result ≡ 1036 }
{
    let mut image = [0u8; PLAIN];
    let end = 8 + 4 * events;
    image[0] = (events % 256) as u8;
    image[1] = (events / 256) as u8;
    image[4] = 8;
    image[6] = (end % 256) as u8;
    image[7] = (end / 256) as u8;
    for i in 0..257 {
        image[8 + 4 * i] = 255;
        image[9 + 4 * i] = 255;
        image[10 + 4 * i] = 4;
    }
    image
}

fn sizes(rt: &impl Print) -> io::Result<()> {
    let most = plain(256);
    case(rt, b"chart-256-events", &most[..1032])?;
    let over = plain(257);
    case(rt, b"chart-257-events", &over)
}

fn headers(rt: &impl Print) -> io::Result<()> {
    case(rt, b"chart-7-bytes", b"\x01\x00\x00\x00\x08\x00\x0C")?;
    case(rt, b"chart-no-nodes", b"\x00\x00\x00\x00\x08\x00\x08\x00")?;
    // the most nodes and relations get as far as the length
    case(rt, b"chart-512-nodes", b"\x00\x02\x00\x00\x08\x00\x08\x08")?;
    case(rt, b"chart-513-nodes", b"\x01\x02\x00\x00\x08\x00\x0C\x08")?;
    case(
        rt,
        b"chart-16384-relations",
        b"\x01\x00\x00\x40\x08\x00\x0C\x00",
    )?;
    case(
        rt,
        b"chart-16385-relations",
        b"\x01\x00\x01\x40\x08\x00\x0C\x00",
    )?;
    case(
        rt,
        b"chart-wrong-offset",
        b"\x01\x00\x00\x00\x09\x00\x0C\x00\xFF\xFF\x04\x00",
    )?;
    case(
        rt,
        b"chart-one-byte-more",
        b"\x01\x00\x00\x00\x08\x00\x0C\x00\xFF\xFF\x04\x00\x00",
    )
}

fn nodes(rt: &impl Print) -> io::Result<()> {
    // node 1 has the parent 2, of two nodes
    case(
        rt,
        b"chart-no-such-parent",
        b"\x02\x00\x00\x00\x08\x00\x10\x00\xFF\xFF\x04\x00\x02\x00\x04\x00",
    )?;
    // node 1 has the flags 8
    case(
        rt,
        b"chart-flags-8",
        b"\x02\x00\x00\x00\x08\x00\x10\x00\xFF\xFF\x04\x00\xFF\xFF\x08\x00",
    )?;
    // node 1 is its own parent
    case(
        rt,
        b"chart-own-parent",
        b"\x02\x00\x00\x00\x08\x00\x10\x00\xFF\xFF\x04\x00\x01\x00\x04\x00",
    )?;
    // node 0 leads into the loop of 1 and 2
    case(
        rt,
        b"chart-loop",
        b"\x03\x00\x00\x00\x08\x00\x14\x00\x01\x00\x04\x00\x02\x00\x00\x00\x01\x00\x00\x00",
    )?;
    // node 1 is the parent of 0 and has a flag
    case(
        rt,
        b"chart-group-flags",
        b"\x02\x00\x00\x00\x08\x00\x10\x00\x01\x00\x04\x00\xFF\xFF\x04\x00",
    )
}

fn relations(rt: &impl Print) -> io::Result<()> {
    // relation 1 is of kind 5
    case(
        rt,
        b"chart-kind-5",
        b"\x01\x00\x02\x00\x08\x00\x0C\x00\xFF\xFF\x04\x00\x00\x00\x00\x00\x04\x00\x00\x00\x00\x00\x05\x00",
    )?;
    // relation 0 leads to node 1, of one node
    case(
        rt,
        b"chart-no-such-node",
        b"\x01\x00\x01\x00\x08\x00\x0C\x00\xFF\xFF\x04\x00\x00\x00\x01\x00\x00\x00",
    )?;
    // P8: node 3 includes the group 0 of 1 and 2, and excludes node 1
    case(
        rt,
        b"chart-p8",
        b"\x04\x00\x02\x00\x08\x00\x18\x00\xFF\xFF\x00\x00\x00\x00\x04\x00\x00\x00\x04\x00\xFF\xFF\x04\x00\x03\x00\x00\x00\x03\x00\x03\x00\x01\x00\x04\x00",
    )?;
    case(
        rt,
        b"chart-whole",
        b"\x02\x00\x03\x00\x08\x00\x10\x00\xFF\xFF\x04\x00\xFF\xFF\x06\x00\x00\x00\x01\x00\x00\x00\x00\x00\x01\x00\x01\x00\x01\x00\x00\x00\x04\x00",
    )
}

pub fn run(rt: &impl Print) -> io::Result<()> {
    sizes(rt)?;
    headers(rt)?;
    nodes(rt)?;
    relations(rt)
}
