// Many that wait and many stale entries.
ghost use Rattle.std.specs.Prelude.{◌≡◌, ◌<◌, ◌≤◌, length};
ghost use Rattle.page.specs.Buffer.{buffer_bytes};

use super::try_with;
use desk::Desk;
use page::BUFFER_BYTES;
use show_made::damage::try_desk;
use show_made::{crowds, small, stale};
use std::io;

// ---- "at most 127, fewer than 8 a memory cell"

// n wait, in memory cells of their own or all in one; the rest is as in a fresh store.
fn try_crowd(rt: &impl Print, name: &str, buffer: &[u8], n: usize, apart: bool) -> io::Result<()>
    requires { n ≤ 128 }
{
    try_with(rt, name, &crowds::cut_desk(), buffer, |d| {
        d.waiting = crowds::crowd(n, apart);
        d.parts.waiting = n as u16;
        d.on = crowds::first_on(n);
        d.parts.on = n as u16;
    })
}

pub fn show_crowds(rt: &impl Print) -> io::Result<()> {
    let mut buffer = [0u8; BUFFER_BYTES];
    crowds::write_fresh(&mut buffer);
    try_desk(rt, b"fresh", &Desk::fresh(), &buffer)?;
    try_crowd(rt, "127 waiting", &buffer, 127, true)?;
    try_crowd(rt, "128 waiting", &buffer, 128, true)?;
    try_crowd(rt, "7 in a memory cell", &buffer, 7, false)?;
    try_crowd(rt, "8 in a memory cell", &buffer, 8, false)
}

// ---- "the stale entries in cells at place k and later, plus all waiting, are at most 16 × (63 − k) + c + 127."

fn try_stale(
    rt: &impl Print,
    name: &str,
    buffer: &mut [u8],
    n: usize,
    place: usize,
    c: u16,
) -> io::Result<()>
    requires { (length buffer.old ≡ buffer_bytes) × (1120 < n) × (n ≤ 1151) }
{
    stale::write_rest(buffer, n);
    try_desk(rt, name.as_bytes(), &stale::stale_desk(n, place, c), buffer)
}

pub fn show_bound(rt: &impl Print) -> io::Result<()> {
    let mut buffer = [0u8; BUFFER_BYTES];
    stale::write_stale(&mut buffer);
    try_stale(rt, "1150 stale at place 0, c 15", &mut buffer, 1150, 0, 15)?;
    try_stale(rt, "1151 stale at place 0, c 15", &mut buffer, 1151, 0, 15)?;
    try_stale(rt, "1150 stale at place 0, c 14", &mut buffer, 1150, 0, 14)?;
    try_stale(rt, "1134 stale at place 1, c 15", &mut buffer, 1134, 1, 15)?;
    try_stale(rt, "1135 stale at place 1, c 15", &mut buffer, 1135, 1, 15)
}
