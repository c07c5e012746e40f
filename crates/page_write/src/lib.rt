// Pages written: one page of those lent anew, from entries or as a free page.
#![tactic(auto)]

ghost use Rattle.std.specs.Prelude.{◌≡◌, ◌+◌, ◌-◌, ◌<◌, ◌≤◌, length, replicate};
ghost use Rattle.terms.specs.Terms.{pages as sheets, page_entries};
ghost use Rattle.lists.specs.Parts.{put};
ghost use Rattle.entries.specs.Entries.{row_of, rows_of};
ghost use Rattle.page.specs.Page.{page_bytes, head_bytes, entry_bytes, entry_of, head_of, page_of, free_page_of};
ghost use Rattle.page.specs.Buffer.{buffer_bytes, put_page};

use entries::Entry;
use page::{ENTRY_BYTES, HEAD_BYTES, Header, PAGE_BYTES, PageKind};
use terms::NO_CELL;

fn write_entry(page: &mut [u8], at: usize, e: Entry)
    requires { at + entry_bytes ≤ length page.old }
    ensures { page.new ≡ put page.old at (entry_of (row_of e)) }
{
    fields::write(page, at, e.radio);
    fields::write(page, at + 2, e.east);
    fields::write(page, at + 4, e.north);
    fields::write_wide(page, at + 6, e.minute);
}

fn write_header(page: &mut [u8], h: Header)
    requires { head_bytes ≤ length page.old }
    ensures { page.new ≡ put page.old 0 (head_of h.used h.kind h.next h.cell) }
{
    fields::write(page, 0, h.used);
    fields::write(page, 2, h.kind);
    fields::write(page, 4, h.next);
    fields::write(page, 6, h.cell);
}

// Zeros from `from` on.
fn clear(page: &mut [u8], from: usize)
    requires { from ≤ length page.old }
    ensures { page.new ≡ put page.old from (replicate (length page.old - from) 0) }
{
    page[from..].fill(0);
}

// The whole page from its header's fields and its entries.
fn fill_page(page: &mut [u8], kind: u16, next: u16, cell: u16, entries: &[Entry])
    requires { (length page.old ≡ page_bytes) × (length entries.now ≤ page_entries) }
    ensures { page.new ≡ page_of kind next cell (rows_of entries.now) }
{
    let used = HEAD_BYTES + ENTRY_BYTES * entries.len();
    write_header(
        page,
        Header {
            used: used as u16,
            kind,
            next,
            cell,
        },
    );
    for (i, &entry) in entries.iter().enumerate() {
        write_entry(page, HEAD_BYTES + ENTRY_BYTES * i, entry);
    }
    clear(page, used);
}

// Page p is written anew; every other page keeps every byte. The kind is a number: a page's kind alone would ask more of callers.
pub fn write_page(pages: &mut [u8], p: usize, kind: u16, next: u16, cell: u16, entries: &[Entry])
    requires { (length pages.old ≡ buffer_bytes) × (p < sheets) × (length entries.now ≤ page_entries) }
    ensures { pages.new ≡ put_page pages.old p (page_of kind next cell (rows_of entries.now)) }
{
    let start = PAGE_BYTES * p;
    fill_page(
        &mut pages[start..start + PAGE_BYTES],
        kind,
        next,
        cell,
        entries,
    );
}

fn fill_free(page: &mut [u8], next: u16)
    requires { length page.old ≡ page_bytes }
    ensures { page.new ≡ free_page_of next }
{
    write_header(
        page,
        Header {
            used: HEAD_BYTES as u16,
            kind: PageKind::Free.number(),
            next,
            cell: NO_CELL,
        },
    );
    clear(page, HEAD_BYTES);
}

// Page p is free, and `next` follows it; every other page keeps every byte.
pub fn free_page(pages: &mut [u8], p: usize, next: u16)
    requires { (length pages.old ≡ buffer_bytes) × (p < sheets) }
    ensures { pages.new ≡ put_page pages.old p (free_page_of next) }
{
    let start = PAGE_BYTES * p;
    fill_free(&mut pages[start..start + PAGE_BYTES], next);
}
