// Builds a sound store by hand, breaks its desk in one clause of "A sound store" at a time, and prints what the test of number 2 says of each.
// `show_sound_pages` breaks its pages.
#![tactic(auto)]

mod desk_clauses;
mod limits;
mod radio_clauses;

use desk::Desk;
use page::BUFFER_BYTES;
use show_made::{damage, small};
use std::io;

fn main(rt: HostRuntime) -> io::Result<()> {
    let mut buffer = [0u8; BUFFER_BYTES];
    small::write_pages(&mut buffer);
    let desk = small::small_desk();
    damage::try_desk(&rt, b"as built", &desk, &buffer)?;
    desk_clauses::show_desk(&rt, &desk, &mut buffer)?;
    radio_clauses::show_radios(&rt, &desk, &buffer)?;
    limits::show_crowds(&rt)?;
    limits::show_bound(&rt)
}

// What the test says of the desk so damaged.
fn try_with<F: FnOnce(&mut Desk)>(
    rt: &impl Print,
    name: &str,
    desk: &Desk,
    buffer: &[u8],
    harm: F,
) -> io::Result<()>
    requires { F.IsAlwaysCallable harm }
{
    let mut harmed = *desk;
    harm(&mut harmed);
    damage::try_desk(rt, name.as_bytes(), &harmed, buffer)
}
