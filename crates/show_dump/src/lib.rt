// A store as programs print it: the desk, and each cell's pages beside the cell.
#![tactic(auto)]

ghost use Rattle.std.specs.Prelude.{◌≡◌, ◌≤◌, length};
ghost use Rattle.terms.specs.Terms.{page_entries};
ghost use Rattle.page.specs.Page.{page_bytes};
ghost use Rattle.page.specs.Buffer.{buffer_bytes};

use desk::{Desk, Frame, Line, Report, Slot};
use entries::Entry;
use page::Header;
use std::io::Write;
use std::{fmt, io};
use terms::PAGES;

pub fn print_refused(rt: &impl Print, number: u16) -> io::Result<()> {
    if number == 0 {
        return Ok(());
    }
    println!(rt; "refused {number}")
}

// ---- the store

pub fn print_store(
    rt: &impl Print,
    when: &[u8],
    name: &[u8],
    records: u16,
    desk: &Desk,
    pages: &[u8],
) -> io::Result<()>
    requires { length pages.now ≡ buffer_bytes }
{
    print_title(rt, when, name, records)?;
    print_desk(rt, desk, pages)
}

// The names are bytes: text would ask more of callers.
fn print_title(rt: &impl Print, when: &[u8], name: &[u8], records: u16) -> io::Result<()> {
    let mut out = io::writer(rt);
    out.write_all(b"---- ")?;
    out.write_all(when)?;
    out.write_all(name)?;
    writeln!(out, ", records {records}")
}

// Numbers in a row, each after a blank.
#[derive(Clone, Copy)]
struct Row<'a>(&'a [u16]);

impl<'a> fmt::Display for Row<'a> {
    fn fmt<W: fmt::Write>(&self, f: &mut fmt::Formatter<W>) -> fmt::Result {
        for number in self.0 {
            write!(f, " {number}")?;
        }
        Ok(())
    }
}

// The first n slots, as far as there are slots.
fn in_use<T>(slots: &[T], n: u16) -> &[T] {
    &slots[..(n as usize).min(slots.len())]
}

fn print_desk(rt: &impl Print, desk: &Desk, pages: &[u8]) -> io::Result<()>
    requires { length pages.now ≡ buffer_bytes }
{
    let parts = desk.parts;
    print_frame(rt, parts.frame, &desk.cells, pages)?;
    print_waiting(rt, &desk.waiting, parts.waiting)?;
    // in a sound store, and in the middle of a call, the last slot is unused
    for &line in in_use(desk.memo.split_at(Desk::MAX_LINES + 1).0, parts.lines) {
        print_line(rt, line)?;
    }
    println!(rt; "on{}", Row(in_use(&desk.on, parts.on)))?;
    println!(rt; "tally {} highest minute {}", parts.tally, parts.highest)
}

fn print_frame(rt: &impl Print, frame: Frame, cells: &[Slot], pages: &[u8]) -> io::Result<()>
    requires { length pages.now ≡ buffer_bytes }
{
    println!(rt; "east cuts{}", Row(in_use(&frame.easts.at, frame.easts.n)))?;
    println!(rt;
        "north cuts{}",
        Row(in_use(&frame.norths.at, frame.norths.n))
    )?;
    for &slot in in_use(cells, frame.cells) {
        print_cell(rt, slot, pages)?;
    }
    let free = page_chain::read_chain(pages, frame.free);
    println!(rt; "free from page {}, pages {}", frame.free, free.n)
}

fn print_waiting(rt: &impl Print, waiting: &[u16; Desk::WAITING_WORDS], n: u16) -> io::Result<()> {
    for i in 0..(n as usize).min(Desk::WAITING_SLOTS) {
        print_report(rt, desk::report_at(waiting, i))?;
    }
    Ok(())
}

fn print_report(rt: &impl Print, r: Report) -> io::Result<()> {
    let minute = fields::wide_of(r.low, r.high);
    let mark = if r.new == 1 { " new" } else { "" };
    println!(rt; "waiting {} {} {} {minute}{mark}", r.radio, r.east, r.north)
}

fn print_line(rt: &impl Print, line: Line) -> io::Result<()> {
    print!(rt; "memo {} missed {}", line.radio, line.missed)?;
    // as it stands: a desk that is no sound one may hold another mark
    if line.placed == 1 {
        println!(rt; " place {} {}", line.east, line.north)
    } else {
        println!(rt; " none")
    }
}

// ---- the cells, in the order of the round

fn print_cell(rt: &impl Print, s: Slot, pages: &[u8]) -> io::Result<()>
    requires { length pages.now ≡ buffer_bytes }
{
    println!(rt;
        "cell {} easts {} to {} norths {} to {} first page {}",
        s.number, s.west, s.east, s.south, s.north, s.first
    )?;
    let chain = page_chain::read_chain(pages, s.first);
    for &page in chain.pages.iter().take(chain.n) {
        print_page(rt, pages, page)?;
    }
    Ok(())
}

fn print_page(rt: &impl Print, buffer: &[u8], p: u16) -> io::Result<()>
    requires { length buffer.now ≡ buffer_bytes }
{
    if PAGES <= p as usize {
        return Ok(());
    }
    let page = page::page_at(buffer, p as usize);
    print_header(rt, p, page::read_header(page))?;
    print_entries(rt, page, page::entry_count(page))
}

fn print_header(rt: &impl Print, p: u16, h: Header) -> io::Result<()> {
    println!(rt;
        "page {p} used {} kind {} next {} cell {}",
        h.used, h.kind, h.next, h.cell
    )
}

fn print_entries(rt: &impl Print, page: &[u8], n: usize) -> io::Result<()>
    requires { (length page.now ≡ page_bytes) × (n ≤ page_entries) }
{
    for i in 0..n {
        print_entry(rt, page::read_entry(page, i))?;
    }
    Ok(())
}

fn print_entry(rt: &impl Print, e: Entry) -> io::Result<()> {
    println!(rt; "{} {} {} {}", e.radio, e.east, e.north, e.minute)
}
