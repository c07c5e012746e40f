// The entries of a cell, told one after the other, page by page of its chain, to a keeper that puts what it wants of them into a table. No page is altered.
#![tactic(auto)]

ghost use Rattle.std.specs.Prelude.{true, List, [], ◌∷◌, ◌++◌, ◌≡◌, ◌≤◌};
ghost use Rattle.terms.specs.Terms.{Fix, max_radio};
ghost use Rattle.lists.specs.Rows.{Row, UpTo};
ghost use Rattle.entries.specs.Entries.{row_of};
ghost use Rattle.page.specs.Page.{entries};
ghost use Rattle.page.specs.Buffer.{page_at, there, entries_from};

use entries::Entry;
use terms::PAGES;

// Who is told of entries, and keeps what it wants of them in a table.
pub trait Keeper {
    type Table;

    // The second table is what the first is once these were told.
    ghost tells: { Self → Self.Table → List (Row Fix) → Self.Table → Type 0 };

    fn tell(&self, entry: Entry, table: &mut Self::Table)
        requires { entry.radio ≤ max_radio }
        ensures { tells self.now table.old (row_of entry ∷ []) table.new };

    ghost none: { (k : Self) (s : Self.Table) → tells k s [] s };

    ghost more: { (k : Self) (s t u : Self.Table) (a b : List (Row Fix)) → tells k s a t → tells k t b u → tells k s (a ++ b) u };
}

// The entries of page p.
fn tell_page<K: Keeper>(pages: &[u8], p: u16, keeper: &K, table: &mut K::Table)
    requires { (there pages.now p ≡ true) × UpTo max_radio (entries (page_at pages.now p)) }
    ensures { K.tells keeper.now table.old (entries (page_at pages.now p)) table.new }
{
    let page = page::page_at(pages, p as usize);
    let n = page::entry_count(page);
    for i in 0..n {
        keeper.tell(page::read_entry(page, i), table);
    }
}

// The entries of a cell, by the first page of its chain.
pub fn tell_cell<K: Keeper>(pages: &[u8], first: u16, keeper: &K, table: &mut K::Table)
    requires { UpTo max_radio (entries_from pages.now first) }
    ensures { K.tells keeper.now table.old (entries_from pages.now first) table.new }
{
    let mut p = first;
    for _ in 0..PAGES {
        if !page::is_there(pages, p) {
            return;
        }
        tell_page(pages, p, keeper, table);
        p = page::next_page(pages, p);
    }
}
