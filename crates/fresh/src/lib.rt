// Making a fresh store: the desk and the pages that every list of calls begins with.
#![tactic(auto)]

ghost use Rattle.std.specs.Prelude.{cond, ◌≡◌, ◌+◌, ◌<◌, eqb, length, drop};
ghost use Rattle.terms.specs.Terms.{pages, no_page};
ghost use Rattle.lists.specs.Parts.{put};
ghost use Rattle.page.specs.Page.{page_bytes};
ghost use Rattle.page.specs.Buffer.{buffer_bytes};
ghost use Rattle.rules.specs.Store.{fresh};
ghost use Rattle.rules.specs.Watches.{fresh_watched};
ghost use Rattle.desk.specs.Layout.{desk_of, pages_of, fresh_pages};
ghost use Rattle.desk.specs.Making.{found, made};
ghost use Rattle.fresh.specs.Begin.{Begins};

use desk::{Answer, Desk};
use page::{BUFFER_BYTES, PageKind};
use terms::{NO_PAGE, PAGES, Refusal};

// The page that follows free page p.
fn free_after(p: usize) -> u16
    requires { p < pages }
    ensures { result ≡ cond (eqb (p + 1) pages) no_page (p + 1) }
{
    if p + 1 == PAGES {
        return NO_PAGE;
    }
    (p + 1) as u16
}

// All pages but the first are those of a fresh store: "pages 1 to 127 free in that order".
fn free_pages(pages: &mut [u8])
    requires { length pages.old ≡ buffer_bytes }
    ensures { pages.new ≡ put pages.old page_bytes (drop page_bytes fresh_pages) }
{
    for p in 1..PAGES {
        page_write::free_page(pages, p, free_after(p));
    }
}

// The pages are those of a fresh store: "one cell (0) on page 0, and pages 1 to 127 free in that order".
fn write_pages(pages: &mut [u8])
    requires { length pages.old ≡ buffer_bytes }
    ensures { pages.new ≡ pages_of fresh }
{
    page_write::write_page(pages, 0, PageKind::First.number(), NO_PAGE, 0, &[]);
    free_pages(pages);
}

// Desk and pages are those of a fresh store, whatever they held.
pub fn lay_out(desk: &mut Desk, pages: &mut [u8])
    requires { length pages.old ≡ buffer_bytes }
    ensures desk { desk.new ≡ desk_of fresh_watched }
    ensures pages { pages.new ≡ pages_of fresh }
{
    *desk = Desk::fresh();
    write_pages(pages);
}

// The same, with the answer; or the page buffer has another size, and every byte is kept.
pub fn begin(desk: &mut Desk, pages: &mut [u8]) -> Answer
    ensures { Begins (found desk.old pages.old) (made result desk.new pages.new) }
{
    if pages.len() != BUFFER_BYTES {
        return Answer::refused(Refusal::WrongSize);
    }
    lay_out(desk, pages);
    desk::numbered(0)
}
