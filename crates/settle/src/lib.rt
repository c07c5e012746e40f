// A cell's chain is settled: its entries are written to the pages that they need, pages that it has too many go to the front of the free chain, and pages that
// it has too few come from there.
#![tactic(auto)]

ghost use Rattle.std.specs.Prelude.{◌≡◌, ◌+◌, ◌-◌, ◌<◌, ◌≤◌, length, drop, take};
ghost use Rattle.terms.specs.Terms.{max_on, pages, page_entries, no_page};
ghost use Rattle.lists.specs.Chains.{chain_head, settled_chain};
ghost use Rattle.lists.specs.Tests.{Each};
ghost use Rattle.entries.specs.Entries.{rows_of};
ghost use Rattle.page.specs.Page.{kind_first, number_of};
ghost use Rattle.page.specs.Buffer.{buffer_bytes, pages_of, chain_from, at_none, end_from};
ghost use Rattle.rules.specs.Store.{pages_for};
ghost use Rattle.desk.specs.Layout.{leaves};
ghost use Rattle.settle.specs.Settle.{written, given_leaves, settled_leaves, settled_ends, kind_at};

use entries::Entry;
use page::{Chain, PageKind, next_page};
use page_write::{free_page, write_page};
use terms::{NO_PAGE, PAGE_ENTRIES, PAGES};

// Where a settled chain begins, and the free chain then.
#[derive(Drop)]
pub struct Settled {
    pub first: u16,
    pub free: u16,
}

// A chain's pages with those that it took, and the front of what it left of the free chain.
#[derive(Drop)]
struct Grown {
    pages: [u16; PAGES],
    free: u16,
}

// "A cell with e entries has max(1, ⌈e/32⌉) pages"
fn pages_for(n: usize) -> usize
    requires { n ≤ max_on }
    ensures { result ≡ pages_for n }
{
    n.div_ceil(PAGE_ENTRIES).max(1)
}

// The chain with as many pages from the front of the free chain as it needs more.
fn grow(buffer: &[u8], chain: Chain, free: u16, need: usize) -> Grown
    requires { (chain.n ≤ pages) × (need ≤ pages) × (end_from pages buffer.now free ≡ at_none)
        × (need ≤ length (pages_of chain) + length (chain_from pages buffer.now free)) }
    ensures { (take need result.pages ≡ settled_chain need (pages_of chain) (chain_from pages buffer.now free))
        × (result.free ≡ chain_head no_page (drop (need - length (pages_of chain)) (chain_from pages buffer.now free))) }
{
    let mut pages = chain.pages;
    let mut front = free;
    for n in chain.n..need {
        pages[n] = front;
        front = next_page(buffer, front);
    }
    Grown { pages, free: front }
}

// The pages from number `need` on go to the front of the free chain, the last first; answers the front then.
pub fn give_up(buffer: &mut [u8], chain: Chain, free: u16, need: usize) -> u16
    requires { (length buffer.old ≡ buffer_bytes) × (chain.n ≤ pages) × Each (λ p. p < pages) (pages_of chain) }
    ensures { (buffer.new ≡ written buffer.old (given_leaves free (drop need (pages_of chain))))
        × (result ≡ chain_head free (drop need (pages_of chain))) }
{
    let mut front = free;
    for i in (need..chain.n).rev() {
        let p = chain.pages[i];
        free_page(buffer, p as usize, front);
        front = p;
    }
    front
}

fn kind_at(k: usize) -> PageKind
    ensures { number_of result ≡ kind_at k }
{
    if k == 0 {
        PageKind::First
    } else {
        PageKind::Further
    }
}

// The entries on the first `need` pages of `onto`, from the last to the first, so that each is led on to.
fn write_chain(buffer: &mut [u8], onto: &[u16; PAGES], need: usize, cell: u16, entries: &[Entry])
    requires { (length buffer.old ≡ buffer_bytes) × Each (λ p. p < pages) (take need onto.now)
        × (length (rows_of entries.now) ≤ max_on) × (need ≡ pages_for (length (rows_of entries.now))) }
    ensures { buffer.new ≡ written buffer.old (leaves kind_first cell (take need onto.now) (rows_of entries.now)) }
{
    let mut next = NO_PAGE;
    for k in (0..need).rev() {
        let p = onto[k];
        let from = PAGE_ENTRIES * k;
        let end = entries.len().min(from + PAGE_ENTRIES);
        write_page(
            buffer,
            p as usize,
            kind_at(k).number(),
            next,
            cell,
            &entries[from..end],
        );
        next = p;
    }
}

// The cell's entries on the pages that they need: the chain gives up its last pages, or takes from the front of the free chain.
pub fn settle(buffer: &mut [u8], chain: Chain, free: u16, cell: u16, entries: &[Entry]) -> Settled
    requires { (length buffer.old ≡ buffer_bytes)
        × (length (rows_of entries.now) ≤ max_on)
        × (chain.n ≤ pages)
        × Each (λ p. p < pages) (pages_of chain)
        × (end_from pages buffer.old free ≡ at_none)
        × (pages_for (length (rows_of entries.now)) ≤ length (pages_of chain) + length (chain_from pages buffer.old free)) }
    ensures { (buffer.new ≡ written buffer.old
        (settled_leaves cell (pages_of chain) (chain_from pages buffer.old free) (rows_of entries.now)))
        × (result ≡ settled_ends (pages_of chain) (chain_from pages buffer.old free) (rows_of entries.now)) }
{
    let need = pages_for(entries.len());
    let grown = grow(buffer, chain, free, need);
    let front = give_up(buffer, chain, grown.free, need);
    write_chain(buffer, &grown.pages, need, cell, entries);
    Settled {
        first: grown.pages[0],
        free: front,
    }
}
