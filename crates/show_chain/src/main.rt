// Writes a cell's chain of three pages and a free page into a page buffer, reads the chain back and prints what it found.
#![tactic(auto)]

ghost use Rattle.std.specs.Prelude.{◌≡◌, ◌<◌, ◌≤◌, length};
ghost use Rattle.terms.specs.Terms.{page_entries, max_on};
ghost use Rattle.page.specs.Page.{page_bytes};
ghost use Rattle.page.specs.Buffer.{buffer_bytes};

use entries::Entry;
use page::{BUFFER_BYTES, Chain, ChainEnd, Header, PageKind};
use std::{array, fmt, io};
use terms::{NO_PAGE, PAGE_ENTRIES, PAGES};

const CELL: u16 = 4;

const ENTRIES: usize = 70;

fn main(rt: HostRuntime) -> io::Result<()> {
    let mut buffer = [0u8; BUFFER_BYTES];
    write_chain(&mut buffer);
    page_write::free_page(&mut buffer, 7, 11);
    print_chain(&rt, &buffer, page_chain::read_chain(&buffer, 5))?;
    print_page(&rt, &buffer, 7)
}

// ---- writing

fn entry(i: usize) -> Entry
    requires { i < max_on }
{
    Entry {
        radio: (3 * (i + 1)) as u16,
        east: (100 + 7 * i) as u16,
        north: (60000 - 11 * i) as u16,
        minute: (65500 + i) as u32,
    }
}

// The entries as a chain of pages 5, 2 and 9.
fn write_chain(buffer: &mut [u8])
    requires { length buffer.old ≡ buffer_bytes }
{
    let entries: [Entry; ENTRIES] = array::from_fn(entry);
    let (first, others) = entries.split_at(PAGE_ENTRIES);
    let (second, third) = others.split_at(PAGE_ENTRIES);
    page_write::write_page(buffer, 5, PageKind::First.number(), 2, CELL, first);
    page_write::write_page(buffer, 2, PageKind::Further.number(), 9, CELL, second);
    page_write::write_page(buffer, 9, PageKind::Further.number(), NO_PAGE, CELL, third);
}

// ---- printing

// A chain's end and its pages.
#[derive(Clone, Copy)]
struct Found(Chain);

impl fmt::Display for Found {
    fn fmt<W: fmt::Write>(&self, f: &mut fmt::Formatter<W>) -> fmt::Result {
        let chain = self.0;
        match chain.end {
            ChainEnd::Ended => write!(f, "chain ended pages")?,
            ChainEnd::PastBound => write!(f, "chain past its bound pages")?,
            ChainEnd::NotThere(p) => write!(f, "chain at page {p} which is not there pages")?,
        }
        for page in chain.pages.iter().take(chain.n) {
            write!(f, " {page}")?;
        }
        Ok(())
    }
}

fn print_chain(rt: &impl Print, buffer: &[u8], chain: Chain) -> io::Result<()>
    requires { length buffer.now ≡ buffer_bytes }
{
    println!(rt; "{}", Found(chain))?;
    for &page in chain.pages.iter().take(chain.n) {
        print_page(rt, buffer, page)?;
    }
    Ok(())
}

fn print_page(rt: &impl Print, buffer: &[u8], p: u16) -> io::Result<()>
    requires { length buffer.now ≡ buffer_bytes }
{
    if PAGES <= p as usize {
        return Ok(());
    }
    let page = page::page_at(buffer, p as usize);
    print_header(rt, p, page::read_header(page))?;
    print_layout(rt, page_layout::laid_out(page))?;
    print_entries(rt, page, page::entry_count(page))
}

fn print_header(rt: &impl Print, p: u16, h: Header) -> io::Result<()> {
    print!(rt;
        "page {p} used {} kind {} next {} cell {}",
        h.used, h.kind, h.next, h.cell
    )
}

fn print_layout(rt: &impl Print, good: bool) -> io::Result<()> {
    let word = if good { "laid out" } else { "not laid out" };
    println!(rt; " {word}")
}

fn print_entries(rt: &impl Print, page: &[u8], n: usize) -> io::Result<()>
    requires { (length page.now ≡ page_bytes) × (n ≤ page_entries) }
{
    for i in 0..n {
        print_entry(rt, page::read_entry(page, i))?;
    }
    Ok(())
}

fn print_entry(rt: &impl Print, e: Entry) -> io::Result<()> {
    println!(rt; "{} {} {} {}", e.radio, e.east, e.north, e.minute)
}
