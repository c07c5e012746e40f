// Chains read: the pages from a first page on, by next page.
#![tactic(auto)]

ghost use Rattle.std.specs.Prelude.{◌≡◌, ◌≤◌};
ghost use Rattle.terms.specs.Terms.{pages};
ghost use Rattle.page.specs.Buffer.{pages_of, chain_from, end_of, bound_end, end_from};

use page::{Chain, ChainEnd};
use terms::{NO_PAGE, PAGES};

// The chain from `first` on, by next page, on any bytes whatever.
pub fn read_chain(buffer: &[u8], first: u16) -> Chain
    ensures { (pages_of result ≡ chain_from pages buffer.now first)
        × (end_of result.end ≡ end_from pages buffer.now first)
        × (result.n ≤ pages) }
{
    let mut pages = [0u16; PAGES];
    let mut p = first;
    for n in 0..PAGES {
        if p == NO_PAGE {
            return Chain {
                end: ChainEnd::Ended,
                n,
                pages,
            };
        }
        if !page::is_there(buffer, p) {
            return Chain {
                end: ChainEnd::NotThere(p),
                n,
                pages,
            };
        }
        pages[n] = p;
        p = page::next_page(buffer, p);
    }
    Chain {
        end: bound_end(p),
        n: PAGES,
        pages,
    }
}

// How a chain ends that has as many pages as it may.
fn bound_end(p: u16) -> ChainEnd
    ensures { end_of result ≡ bound_end p }
{
    if p == NO_PAGE {
        ChainEnd::Ended
    } else {
        ChainEnd::PastBound
    }
}
