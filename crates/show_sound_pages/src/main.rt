// Builds a sound store by hand, breaks its pages and chains in one clause of "A sound store" at a time, and prints what the test of number 2 says of each.
#![tactic(auto)]

mod flips;
mod page_clauses;

use page::BUFFER_BYTES;
use show_made::{damage, small};
use std::io;

fn main(rt: HostRuntime) -> io::Result<()> {
    let mut buffer = [0u8; BUFFER_BYTES];
    small::write_pages(&mut buffer);
    let desk = small::small_desk();
    damage::try_desk(&rt, b"as built", &desk, &buffer)?;
    page_clauses::show_pages(&rt, &desk, &mut buffer)?;
    flips::show_flips(&rt, &desk, &mut buffer)
}
