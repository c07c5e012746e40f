// The test of a page's layout: whether its bytes are those of a page with some entries.
#![tactic(auto)]

ghost use Rattle.std.specs.Prelude.{◌≡◌, ◌+◌, ◌*◌, ◌≤◌, max, length, drop};
ghost use Rattle.terms.specs.Terms.{page_entries};
ghost use Rattle.lists.specs.Parts.{tab};
ghost use Rattle.page.specs.Page.{head_bytes, entry_bytes, entry_at};
ghost use Rattle.page_layout.specs.Layout.{climb, top, kind_fits, laid_out};

use page::{ENTRY_BYTES, HEAD_BYTES, PAGE_BYTES, PageKind};
use terms::MAX_RADIO;

// The last of the first n radios, if they rise from above `low` up to the greatest number; for none of them `low`. The last is the greatest, so that it alone is
// compared with that number.
pub fn radios_rise(page: &[u8], n: usize, low: u16) -> Option<u16>
    requires { (n ≤ page_entries) × (head_bytes + entry_bytes * n ≤ length page.now) }
    ensures { result ≡ climb low (tab n (entry_at page.now)) }
{
    if n == 0 {
        return Some(low);
    }
    let mut last = low;
    for i in 0..n {
        let radio = fields::read(page, HEAD_BYTES + ENTRY_BYTES * i);
        if radio <= last {
            return None;
        }
        last = radio;
    }
    if MAX_RADIO < last { None } else { Some(last) }
}

// The greatest byte from `from` on. It never leaves early, so that many bytes are compared at a time.
pub fn top_from(page: &[u8], from: usize) -> u8
    requires { from ≤ length page.now }
    ensures { result ≡ top (drop from page.now) }
{
    let mut most: u8 = 0;
    for &byte in &page[from..] {
        most = most.max(byte);
    }
    most
}

fn kind_fits(kind: u16, n: usize) -> bool
    ensures { result ≡ kind_fits kind n }
{
    match PageKind::numbered(kind) {
        Some(PageKind::Free) => n == 0,
        Some(PageKind::First) => true,
        Some(PageKind::Further) => 0 < n,
        None => false,
    }
}

// The bytes are those of a page with some entries; next page and cell are not looked at.
pub fn laid_out(page: &[u8]) -> bool
    ensures { result ≡ laid_out page.now }
{
    if page.len() != PAGE_BYTES {
        return false;
    }
    let h = page::read_header(page);
    let n = page::room(h.used);
    let end = HEAD_BYTES + ENTRY_BYTES * n;
    if h.used as usize != end {
        return false;
    }
    if !kind_fits(h.kind, n) {
        return false;
    }
    if top_from(page, end) != 0 {
        return false;
    }
    radios_rise(page, n, 0).is_some()
}
