// The clauses that look at the pages.
ghost use Rattle.std.specs.Prelude.{◌≡◌, ◌+◌, ◌<◌, ◌≤◌, length};
ghost use Rattle.terms.specs.Terms.{pages, field_bytes};
ghost use Rattle.page.specs.Page.{page_bytes};
ghost use Rattle.page.specs.Buffer.{buffer_bytes};

use desk::Desk;
use page::{BUFFER_BYTES, PAGE_BYTES, PageKind};
use show_made::damage::{
    CELL_AT, EAST_AT, HIGH_HALF_AT, KIND_AT, LAST_AT, LAST_RADIO_AT, LOW_HALF_AT, NEXT_AT,
    RADIO_AT, THIRD_RADIO_AT, USED_AT, try_desk, try_field, try_two,
};
use show_made::small;
use show_made::small::{CUT, FREE_FRONT, HIGH_FIRST, LOW_FIRST, LOW_FURTHER};
use std::io;
use terms::{NO_PAGE, PAGE_ENTRIES};

pub fn show_pages(rt: &impl Print, desk: &Desk, buffer: &mut [u8]) -> io::Result<()>
    requires { length buffer.old ≡ buffer_bytes }
    ensures { length buffer.new ≡ buffer_bytes }
{
    let (short, _) = buffer.split_at(BUFFER_BYTES - 1);
    try_desk(rt, b"41983 bytes", desk, short)?;
    show_chains(rt, desk, buffer)?;
    show_fronts(rt, desk, buffer)?;
    show_kinds(rt, desk, buffer)?;
    show_rest(rt, desk, buffer)?;
    show_counts(rt, desk, buffer)?;
    show_entries(rt, desk, buffer)?;
    show_minutes(rt, desk, buffer)?;
    show_twice(rt, desk, buffer)
}

// ---- one field at a time

// Another value for the field at `at` of a page.
#[derive(Clone, Copy)]
struct Damage<'a> {
    name: &'a str,
    page: usize,
    at: usize,
    value: u16,
    ghost there: { page < pages },
    ghost within: { at + field_bytes ≤ page_bytes },
}

impl<'a> Damage<'a> {
    fn new(name: &'a str, page: usize, at: usize, value: u16) -> Damage<'a>
        requires there { page < pages }
        requires within { at + field_bytes ≤ page_bytes }
    {
        Damage {
            name,
            page,
            at,
            value,
        }
    }

    fn next(name: &'a str, page: usize, next: u16) -> Damage<'a>
        requires { page < pages }
    {
        Damage::new(name, page, NEXT_AT, next)
    }

    fn kind(name: &'a str, page: usize, kind: PageKind) -> Damage<'a>
        requires { page < pages }
    {
        Damage::new(name, page, KIND_AT, kind.number())
    }
}

fn try_all(
    rt: &impl Print,
    desk: &Desk,
    buffer: &mut [u8],
    damages: &[Damage<'_>],
) -> io::Result<()>
    requires { length buffer.old ≡ buffer_bytes }
{
    for damage in damages {
        try_field(
            rt,
            damage.name.as_bytes(),
            desk,
            buffer,
            damage.page,
            damage.at,
            damage.value,
        )?;
    }
    Ok(())
}

// "Each page is in one chain"
fn show_chains(rt: &impl Print, desk: &Desk, buffer: &mut [u8]) -> io::Result<()>
    requires { length buffer.old ≡ buffer_bytes }
{
    let damages = [
        Damage::next("page in no chain", 126, NO_PAGE),
        Damage::next("free chain in a ring", 127, FREE_FRONT),
        Damage::next("free chain to page 128", 127, 128),
        Damage::next("free chain into a cell", 127, HIGH_FIRST as u16),
        Damage::next("cell's chain in a ring", LOW_FURTHER, LOW_FIRST as u16),
    ];
    try_all(rt, desk, buffer, &damages)
}

fn show_fronts(rt: &impl Print, desk: &Desk, buffer: &[u8]) -> io::Result<()> {
    for (name, free) in [("free chain from page 2 on", 2), ("no free chain", NO_PAGE)] {
        let mut moved = *desk;
        moved.parts.frame.free = free;
        try_desk(rt, name.as_bytes(), &moved, buffer)?;
    }
    let mut shared = *desk;
    shared.cells[1].first = LOW_FURTHER as u16;
    try_desk(rt, b"page in two chains", &shared, buffer)
}

// "laid out as above": used bytes and kind
fn show_kinds(rt: &impl Print, desk: &Desk, buffer: &mut [u8]) -> io::Result<()>
    requires { length buffer.old ≡ buffer_bytes }
{
    let damages = [
        Damage::new("used bytes 39", HIGH_FIRST, USED_AT, 39),
        Damage::new("used bytes 338", LOW_FIRST, USED_AT, 338),
        Damage::kind("first page of kind 3", HIGH_FIRST, PageKind::Further),
        Damage::kind("further page of kind 2", LOW_FURTHER, PageKind::First),
        Damage::kind("free page of kind 2", 127, PageKind::First),
    ];
    try_all(rt, desk, buffer, &damages)
}

// cell and unused bytes
fn show_rest(rt: &impl Print, desk: &Desk, buffer: &mut [u8]) -> io::Result<()>
    requires { length buffer.old ≡ buffer_bytes }
{
    let damages = [
        Damage::new("free page with a cell", 127, CELL_AT, 1),
        Damage::new("page of another cell", LOW_FURTHER, CELL_AT, 1),
        Damage::new("unused byte 1", LOW_FURTHER, LAST_AT, 256),
    ];
    try_all(rt, desk, buffer, &damages)
}

// "A cell with e entries has max(1, ⌈e/32⌉) pages .. every page but the last full"
fn show_counts(rt: &impl Print, desk: &Desk, buffer: &mut [u8]) -> io::Result<()>
    requires { length buffer.old ≡ buffer_bytes }
{
    try_counts(rt, b"31 entries, then 2", desk, buffer, 31, 2)?;
    try_counts(rt, b"32 entries, then none", desk, buffer, PAGE_ENTRIES, 0)?;
    let told = try_counts(rt, b"32 entries, then 1", desk, buffer, PAGE_ENTRIES, 1);
    small::write_low(buffer, PAGE_ENTRIES, 2);
    told
}

// With so many entries on the low cell's pages; the radios left out are off.
fn try_counts(
    rt: &impl Print,
    name: &[u8],
    desk: &Desk,
    buffer: &mut [u8],
    first: usize,
    further: usize,
) -> io::Result<()>
    requires { (length buffer.old ≡ buffer_bytes) × (first ≤ 32) × (further ≤ 2) }
{
    small::write_low(buffer, first, further);
    let entries = first + further;
    let mut off = *desk;
    off.on = small::radios_on(entries);
    off.parts.on = (entries + 2) as u16;
    try_desk(rt, name, &off, buffer)
}

// "entries by rising radio", "Entries lie in their cell's rectangle"
fn show_entries(rt: &impl Print, desk: &Desk, buffer: &mut [u8]) -> io::Result<()>
    requires { length buffer.old ≡ buffer_bytes }
{
    let low = PAGE_BYTES * LOW_FIRST;
    let further = PAGE_BYTES * LOW_FURTHER;
    try_two(
        rt,
        b"radios falling on a page",
        desk,
        buffer,
        low + THIRD_RADIO_AT,
        low + LAST_RADIO_AT,
    )?;
    try_two(
        rt,
        b"radios falling over two pages",
        desk,
        buffer,
        low + LAST_RADIO_AT,
        further + RADIO_AT,
    )?;
    let damages = [
        Damage::new("entry of radio 0", HIGH_FIRST, RADIO_AT, 0),
        Damage::new("entry of radio 4096", HIGH_FIRST, THIRD_RADIO_AT, 4096),
        Damage::new("entry at its cell's edge", LOW_FURTHER, EAST_AT, CUT - 1),
        Damage::new("entry outside its cell", LOW_FURTHER, EAST_AT, CUT),
    ];
    try_all(rt, desk, buffer, &damages)
}

// "a sound store has no entry or waiting report above it"; the highest minute is 65536 + 4464
fn show_minutes(rt: &impl Print, desk: &Desk, buffer: &mut [u8]) -> io::Result<()>
    requires { length buffer.old ≡ buffer_bytes }
{
    let damages = [
        Damage::new(
            "entry at the highest minute",
            LOW_FURTHER,
            LOW_HALF_AT,
            4464,
        ),
        Damage::new("entry above it", LOW_FURTHER, LOW_HALF_AT, 4465),
        Damage::new("entry above it by a half", LOW_FURTHER, HIGH_HALF_AT, 2),
    ];
    try_all(rt, desk, buffer, &damages)
}

// "one a radio in each cell": both entries of radio 7 are stale, and its line says so
fn show_twice(rt: &impl Print, desk: &Desk, buffer: &mut [u8]) -> io::Result<()>
    requires { length buffer.old ≡ buffer_bytes }
{
    small::write_high(buffer, true);
    let mut twice = *desk;
    twice.memo[0].missed = 2;
    let told = try_desk(rt, b"radio twice in a cell", &twice, buffer);
    small::write_high(buffer, false);
    told
}
