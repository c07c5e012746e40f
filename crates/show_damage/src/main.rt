// Damages a good page buffer in one place at a time, mends it again, and prints what reading a chain and the test of a page's layout answer.
#![tactic(auto)]

ghost use Rattle.std.specs.Prelude.{◌≡◌, ◌+◌, ◌<◌, ◌≤◌, length};
ghost use Rattle.terms.specs.Terms.{pages, max_on, field_bytes};
ghost use Rattle.page.specs.Page.{page_bytes};
ghost use Rattle.page.specs.Buffer.{buffer_bytes};

use entries::Entry;
use page::{BUFFER_BYTES, Chain, ChainEnd, PAGE_BYTES, PageKind};
use std::{array, fmt, io};
use terms::{NO_PAGE, PAGE_ENTRIES, PAGES};

// The good buffer: a cell's 34 entries on pages 3 and 127, and page 7 free.
const FIRST: usize = 3;

const FURTHER: usize = 127;

const FREE: usize = 7;

const CELL: u16 = 4;

const ENTRIES: usize = 34;

// Where the fields stand in a page; the further page has two entries, 28 used bytes.
const USED_AT: usize = 0;

const KIND_AT: usize = 2;

const NEXT_AT: usize = 4;

const RADIO_AT: usize = 8;

const SECOND_RADIO_AT: usize = 18;

const UNUSED_AT: usize = 28;

const LAST_AT: usize = 326;

// Another value for a field of a page, and what is said of it.
#[derive(Clone, Copy)]
struct Damage<'a> {
    name: &'a str,
    page: usize,
    at: usize,
    value: u16,
    ghost there: { page < pages },
    ghost within: { at + field_bytes ≤ page_bytes },
}

fn main(rt: HostRuntime) -> io::Result<()> {
    let mut buffer = [0u8; BUFFER_BYTES];
    write_pages(&mut buffer);
    show_chains(&rt, &mut buffer)?;
    show_pages(&rt, &mut buffer)
}

// ---- the good buffer

fn entry(i: usize) -> Entry
    requires { i < max_on }
{
    Entry {
        radio: (100 * (i + 1)) as u16,
        east: (1000 + i) as u16,
        north: (2000 + i) as u16,
        minute: 0,
    }
}

fn write_pages(buffer: &mut [u8])
    requires { length buffer.old ≡ buffer_bytes }
{
    let entries: [Entry; ENTRIES] = array::from_fn(entry);
    let (first, further) = entries.split_at(PAGE_ENTRIES);
    page_write::write_page(
        buffer,
        FIRST,
        PageKind::First.number(),
        FURTHER as u16,
        CELL,
        first,
    );
    page_write::write_page(
        buffer,
        FURTHER,
        PageKind::Further.number(),
        NO_PAGE,
        CELL,
        further,
    );
    page_write::free_page(buffer, FREE, NO_PAGE);
}

// ---- one damage at a time

// The field at `at` is v; what it was.
fn exchange(buffer: &mut [u8], at: usize, v: u16) -> u16
    requires { at + field_bytes ≤ length buffer.old }
{
    let was = fields::read(buffer, at);
    fields::write(buffer, at, v);
    was
}

// The chain from the first page on, with another page after that one.
fn with_next(buffer: &mut [u8], next: u16) -> Chain
    requires { length buffer.old ≡ buffer_bytes }
{
    let at = PAGE_BYTES * FIRST + NEXT_AT;
    let was = exchange(buffer, at, next);
    let chain = page_chain::read_chain(buffer, FIRST as u16);
    exchange(buffer, at, was);
    chain
}

impl<'a> Damage<'a> {
    fn new(name: &'a str, page: usize, at: usize, value: u16) -> Damage<'a>
        requires there { page < pages }
        requires within { at + field_bytes ≤ page_bytes }
    {
        Damage {
            name,
            page,
            at,
            value,
        }
    }

    fn kind(name: &'a str, page: usize, kind: PageKind) -> Damage<'a>
        requires { page < pages }
    {
        Damage::new(name, page, KIND_AT, kind.number())
    }
}

// The test of a page, damaged so.
fn try_pages(rt: &impl Print, buffer: &mut [u8], damages: &[Damage<'_>]) -> io::Result<()>
    requires { length buffer.old ≡ buffer_bytes }
{
    for damage in damages {
        let place = PAGE_BYTES * damage.page + damage.at;
        let was = exchange(buffer, place, damage.value);
        let good = page_layout::laid_out(page::page_at(buffer, damage.page));
        exchange(buffer, place, was);
        print_layout(rt, damage.name, good)?;
    }
    Ok(())
}

// ---- chains

fn show_chains(rt: &impl Print, buffer: &mut [u8]) -> io::Result<()>
    requires { length buffer.old ≡ buffer_bytes }
{
    show_next(rt, buffer)?;
    show_first(rt, buffer)?;
    show_cut(rt, buffer)?;
    show_all(rt)
}

fn show_next(rt: &impl Print, buffer: &mut [u8]) -> io::Result<()>
    requires { length buffer.old ≡ buffer_bytes }
{
    for (name, next) in [
        ("good chain", FURTHER as u16),
        ("next page is itself", FIRST as u16),
        ("next page 128", 128),
        ("next page 130", 130),
        ("next page 60000", 60000),
    ] {
        print_chain(rt, name, with_next(buffer, next))?;
    }
    Ok(())
}

fn show_first(rt: &impl Print, buffer: &[u8]) -> io::Result<()> {
    for (name, first) in [("first page 65535", NO_PAGE), ("first page 200", 200)] {
        print_chain(rt, name, page_chain::read_chain(buffer, first))?;
    }
    Ok(())
}

fn show_cut(rt: &impl Print, buffer: &[u8]) -> io::Result<()>
    requires { length buffer.now ≡ buffer_bytes }
{
    let (short, _) = buffer.split_at(BUFFER_BYTES - 1);
    for (name, cut) in [("one byte short", short), ("empty buffer", &[])] {
        print_chain(rt, name, page_chain::read_chain(cut, FIRST as u16))?;
    }
    Ok(())
}

// The longest chain: each of the 128 pages once, then none or the first again.
fn show_all(rt: &impl Print) -> io::Result<()> {
    let mut buffer = [0u8; BUFFER_BYTES];
    for p in 0..PAGES {
        page_write::free_page(&mut buffer, p, (p + 1) as u16);
    }
    for (name, after) in [("all pages in a row", NO_PAGE), ("all pages in a ring", 0)] {
        page_write::free_page(&mut buffer, PAGES - 1, after);
        print_chain(rt, name, page_chain::read_chain(&buffer, 0))?;
    }
    Ok(())
}

// ---- layout

fn show_pages(rt: &impl Print, buffer: &mut [u8]) -> io::Result<()>
    requires { length buffer.old ≡ buffer_bytes }
{
    show_good(rt, buffer)?;
    show_size(rt, buffer)?;
    show_head(rt, buffer)?;
    show_rest(rt, buffer)
}

fn show_good(rt: &impl Print, buffer: &mut [u8]) -> io::Result<()>
    requires { length buffer.old ≡ buffer_bytes }
{
    let damages = [
        Damage::kind("first page", FIRST, PageKind::First),
        Damage::kind("further page", FURTHER, PageKind::Further),
        Damage::kind("free page", FREE, PageKind::Free),
    ];
    try_pages(rt, buffer, &damages)
}

fn show_size(rt: &impl Print, buffer: &[u8]) -> io::Result<()>
    requires { length buffer.now ≡ buffer_bytes }
{
    let page = page::page_at(buffer, FIRST);
    let (short, _) = page.split_at(PAGE_BYTES - 1);
    print_layout(rt, "page of 327 bytes", page_layout::laid_out(short))
}

// Used bytes and kind.
fn show_head(rt: &impl Print, buffer: &mut [u8]) -> io::Result<()>
    requires { length buffer.old ≡ buffer_bytes }
{
    let damages = [
        Damage::new("used bytes 7", FREE, USED_AT, 7),
        Damage::new("used bytes 27", FURTHER, USED_AT, 27),
        Damage::new("used bytes 338", FIRST, USED_AT, 338),
        Damage::new("kind 0", FIRST, KIND_AT, 0),
        Damage::new("kind 4", FIRST, KIND_AT, 4),
        Damage::kind("free page with an entry", FURTHER, PageKind::Free),
        Damage::kind("first page without an entry", FREE, PageKind::First),
        Damage::kind("further page without an entry", FREE, PageKind::Further),
    ];
    try_pages(rt, buffer, &damages)
}

// Unused bytes and radios.
fn show_rest(rt: &impl Print, buffer: &mut [u8]) -> io::Result<()>
    requires { length buffer.old ≡ buffer_bytes }
{
    let damages = [
        Damage::new("first unused byte 1", FURTHER, UNUSED_AT, 1),
        Damage::new("last unused byte 1", FURTHER, LAST_AT, 256),
        Damage::new("first radio 0", FURTHER, RADIO_AT, 0),
        Damage::new("last radio 4095", FURTHER, SECOND_RADIO_AT, 4095),
        Damage::new("last radio 4096", FURTHER, SECOND_RADIO_AT, 4096),
        Damage::new("two radios equal", FURTHER, SECOND_RADIO_AT, 3300),
        Damage::new("radios falling", FURTHER, SECOND_RADIO_AT, 3299),
    ];
    try_pages(rt, buffer, &damages)
}

// ---- printing

fn print_layout(rt: &impl Print, name: &str, good: bool) -> io::Result<()> {
    let word = if good { "laid out" } else { "not laid out" };
    println!(rt; "{name}: {word}")
}

// What a chain is found to be.
#[derive(Clone, Copy)]
struct Found(Chain);

impl fmt::Display for Found {
    fn fmt<W: fmt::Write>(&self, f: &mut fmt::Formatter<W>) -> fmt::Result {
        let n = self.0.n;
        match self.0.end {
            ChainEnd::Ended => write!(f, "ended, pages {n}"),
            ChainEnd::PastBound => write!(f, "past its bound, pages {n}"),
            ChainEnd::NotThere(p) => write!(f, "page {p} is not there, pages {n}"),
        }
    }
}

fn print_chain(rt: &impl Print, name: &str, chain: Chain) -> io::Result<()> {
    println!(rt; "{name}: {}", Found(chain))
}
