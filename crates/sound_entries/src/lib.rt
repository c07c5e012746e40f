// The walk over the entries of all cells: each is judged by its radio's memo line, and added to its radio's number.
#![tactic(auto)]

ghost use Rattle.std.specs.Prelude.{map, ◌≡◌, ◌≤◌, length, take};
ghost use Rattle.terms.specs.Terms.{max_radio, page_entries};
ghost use Rattle.lists.specs.Rows.{UpTo};
ghost use Rattle.lists.specs.Sums.{concat};
ghost use Rattle.page.specs.Page.{page_bytes, entries};
ghost use Rattle.rules.specs.Limits.{max_cells};
ghost use Rattle.desk.specs.Held.{directory_in};
ghost use Rattle.memo_index.specs.Index.{Named, judged};
ghost use Rattle.sound_balance.specs.Tables.{added};
ghost use Rattle.page.specs.Buffer.{entries_from};
ghost use Rattle.sound_entries.specs.Entries.{rows_read, weight, weigh, stale_sum};

use desk::{Desk, Line, Slot};
use memo_index::{RADIOS, is_stale, radio_index};
use sound_balance::HALF;
use terms::PAGES;

// ---- what is found

// An entry adds 1 to its radio's low half, or to the high half if it is stale.
fn weight(stale: bool) -> u16
    ensures { result ≡ weight stale }
{
    if stale { HALF } else { 1 }
}

// The entries of a page are added; how many of them are stale.
fn tally_page(
    page: &[u8],
    memo: &[Line; Desk::LINE_SLOTS],
    lines: &[u16; RADIOS],
    balance: &mut [u16; RADIOS],
) -> u16
    requires { (length page.now ≡ page_bytes) × Named memo.now lines.now × UpTo max_radio (entries page.now) }
    ensures { (balance.new
        ≡ added (weigh (judged memo.now lines.now)) balance.old (entries page.now))
        × (result ≡ stale_sum (judged memo.now lines.now) (entries page.now)) × (result ≤ page_entries) }
{
    let n = page::entry_count(page);
    let mut sum: u16 = 0;
    for i in 0..n {
        let e = page::read_entry(page, i);
        let stale = is_stale(e, memo, lines);
        let k = radio_index(e.radio);
        balance[k] = balance[k].wrapping_add(weight(stale));
        sum = sum + u16::from(stale);
    }
    sum
}

// The entries of a chain, from its first page on.
fn tally_chain(
    pages: &[u8],
    first: u16,
    memo: &[Line; Desk::LINE_SLOTS],
    lines: &[u16; RADIOS],
    balance: &mut [u16; RADIOS],
) -> u16
    requires { Named memo.now lines.now × UpTo max_radio (entries_from pages.now first) }
    ensures { (balance.new
        ≡ added (weigh (judged memo.now lines.now)) balance.old (entries_from pages.now first))
        × (result ≡ stale_sum (judged memo.now lines.now) (entries_from pages.now first)) }
{
    let mut sum: u16 = 0;
    let mut p = first;
    for _met in 0..PAGES {
        if !page::is_there(pages, p) {
            return sum;
        }
        let page = page::page_at(pages, p as usize);
        sum = sum + tally_page(page, memo, lines, balance);
        p = page::next_page(pages, p);
    }
    sum
}

// The entries of all cells, in the order of the round; how many of each cell's are stale.
pub fn tally_cells(
    pages: &[u8],
    cells: &[Slot; Desk::MAX_CELLS],
    n: usize,
    memo: &[Line; Desk::LINE_SLOTS],
    lines: &[u16; RADIOS],
    balance: &mut [u16; RADIOS],
) -> [u16; Desk::MAX_CELLS]
    requires { (n ≤ max_cells) × Named memo.now lines.now
        × UpTo max_radio (concat (rows_read pages.now (directory_in n cells.now))) }
    ensures { (balance.new
        ≡ added (weigh (judged memo.now lines.now)) balance.old
        (concat (rows_read pages.now (directory_in n cells.now))))
        × (take n result
        ≡ map (stale_sum (judged memo.now lines.now)) (rows_read pages.now (directory_in n cells.now))) }
{
    let mut counts = [0u16; Desk::MAX_CELLS];
    for i in 0..n {
        counts[i] = tally_chain(pages, cells[i].first, memo, lines, balance);
    }
    counts
}
