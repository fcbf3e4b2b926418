// Reads a chart from standard input and prints the listing of its rule book.
#![tactic(auto)]

use listing::{LISTING_INPUT, MAX_LISTING};

// A read or a write that fails ends the program with its error.
fn main(rt: HostRuntime) -> std::io::Result<()> {
    let mut input = [0u8; LISTING_INPUT];
    let mut room = [0u8; MAX_LISTING];
    let n = printing::read_full(&mut rt.stdin(), &mut input)?;
    let length = listing::list(&input[..n], &mut room);
    rt.write_all(&room[..length])
}
