// Carries records from a fresh store on, one by one, and prints desk and pages before and after those whose flush splits a cell, joins two and lets a chain
// grow, and the one whose tally sweeps.
#![tactic(auto)]

ghost use Rattle.std.specs.Prelude.{◌≡◌, ◌≤◌, length};
ghost use Rattle.page.specs.Buffer.{buffer_bytes};

use desk::Desk;
use page::BUFFER_BYTES;
use records::Kind;
use std::io;

fn main(rt: HostRuntime) -> io::Result<()> {
    let mut pages = [0u8; BUFFER_BYTES];
    show_apart(&rt, &mut pages)?;
    show_together(&rt, &mut pages)
}

// 33 radios stand apart: the 33rd entry splits the cell. Eight of the low cell sign off, and the tally sweeps their entries. Then three of the high cell sign off
// and two of the low cell come over, so that the two cells have 24 entries together, two of them stale, and are joined.
fn show_apart(rt: &impl Print, pages: &mut [u8]) -> io::Result<()>
    requires { length pages.old ≡ buffer_bytes }
{
    let mut desk = Desk::fresh();
    fresh::begin(&mut desk, pages);
    around(rt, b"the split", &mut desk, pages, 1, 40, true)?;
    around(rt, b"the tally's sweep", &mut desk, pages, 41, 48, true)?;
    around(rt, b"the join", &mut desk, pages, 49, 59, true)
}

// 33 radios stand at one place: no cut.
fn show_together(rt: &impl Print, pages: &mut [u8]) -> io::Result<()>
    requires { length pages.old ≡ buffer_bytes }
{
    let mut desk = Desk::fresh();
    fresh::begin(&mut desk, pages);
    around(rt, b"the chain grows", &mut desk, pages, 1, 40, false)
}

// The records from `first` to `last`; what is there before the last of them, and after it.
fn around(
    rt: &impl Print,
    name: &[u8],
    desk: &mut Desk,
    pages: &mut [u8],
    first: u16,
    last: u16,
    apart: bool,
) -> io::Result<()>
    requires { (length pages.old ≡ buffer_bytes) × (1 ≤ first) × (first ≤ last) × (last ≤ 59) }
{
    for i in first..last {
        step(rt, desk, pages, i, apart)?;
    }
    show_dump::print_store(rt, b"before ", name, last - 1, desk, pages)?;
    step(rt, desk, pages, last, apart)?;
    show_dump::print_store(rt, b"after ", name, last, desk, pages)
}

// ---- the records

// Record i, at minute i: radios 1 to 33 sign on, 1 to 7 report; 1 to 8 sign off, and 17 to 19; 9 and 10 report from far east, and 20 to 25.
fn step(rt: &impl Print, desk: &mut Desk, pages: &mut [u8], i: u16, apart: bool) -> io::Result<()>
    requires { (length pages.old ≡ buffer_bytes) × (1 ≤ i) × (i ≤ 59) }
{
    match i {
        1..=33 => place(rt, desk, pages, i, Kind::SignOn, i, 0, apart),
        34..=40 => place(rt, desk, pages, i, Kind::Report, i - 33, 500, apart),
        41..=48 => sign_off(rt, desk, pages, i, i - 40),
        49..=51 => sign_off(rt, desk, pages, i, i - 32),
        52..=53 => place(rt, desk, pages, i, Kind::Report, i - 43, 20000, apart),
        _ => place(rt, desk, pages, i, Kind::Report, i - 34, 20000, apart),
    }
}

// A sign-on or report from the radio's place, so many metres further east; or from the one place.
fn place(
    rt: &impl Print,
    desk: &mut Desk,
    pages: &mut [u8],
    minute: u16,
    kind: Kind,
    radio: u16,
    further: u16,
    apart: bool,
) -> io::Result<()>
    requires { (length pages.old ≡ buffer_bytes) × (radio ≤ 33) × (further ≤ 20000) }
{
    let (east, north) = if apart {
        (100 + 1000 * radio + further, 60000 - 1000 * radio)
    } else {
        (100, 60000)
    };
    tell(
        rt,
        desk,
        pages,
        &[14, kind.number(), radio, east, north, minute, 0],
    )
}

fn sign_off(
    rt: &impl Print,
    desk: &mut Desk,
    pages: &mut [u8],
    minute: u16,
    radio: u16,
) -> io::Result<()>
    requires { length pages.old ≡ buffer_bytes }
{
    tell(
        rt,
        desk,
        pages,
        &[10, Kind::SignOff.number(), radio, minute, 0],
    )
}

// The record of these fields. None here is turned down, or it would be printed.
fn tell(rt: &impl Print, desk: &mut Desk, pages: &mut [u8], record: &[u16]) -> io::Result<()>
    requires { (length pages.old ≡ buffer_bytes) × (length record.now ≤ 7) }
{
    let mut bytes = [0u8; 14];
    for (i, &field) in record.iter().enumerate() {
        fields::write(&mut bytes, 2 * i, field);
    }
    let mut buffer = [0u8; 10];
    let (bytes, _) = bytes.split_at(2 * record.len());
    let answer = carry::carry(desk, pages, bytes, &mut buffer);
    show_dump::print_refused(rt, answer.number)
}
