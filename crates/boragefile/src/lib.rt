// The desk's calls on a desk that is lent: thin functions over `carry`, `watching::set` and `clear`, `write_lent`, `read_lent` and `fresh::begin`, and the test of
// soundness. `boragefile_c` exports them to programs in Rust or C.
#![tactic(auto)]

ghost use Rattle.std.specs.Prelude.{true, [], ◌≡◌};
ghost use Rattle.rules.specs.Calls.{hands, clears, writes};
ghost use Rattle.desk.specs.Call.{handed, left, Answers};
ghost use Rattle.desk.specs.Sound.{Sound};
ghost use Rattle.desk.specs.Making.{found, made};
ghost use Rattle.fresh.specs.Begin.{Begins};
ghost use Rattle.spreadsheet.specs.Call.{Reads};
ghost use Rattle.watching.specs.Watching.{sets_within};

use desk::{Answer, Desk, Rectangle};

// A record, well formed or not, on a store in any condition.
pub fn call(desk: &mut Desk, pages: &mut [u8], bytes: &[u8], buffer: &mut [u8]) -> Answer
    ensures { Answers
        (handed desk.old pages.old (hands bytes.now) buffer.old)
        (left result desk.new pages.new buffer.new) }
{
    carry::carry(desk, pages, bytes, buffer)
}

// ---- watches

// Sets a watch.
pub fn watch_set(
    desk: &mut Desk,
    pages: &[u8],
    watch: u16,
    west: u16,
    east: u16,
    south: u16,
    north: u16,
) -> Answer
    ensures { Answers
        (handed desk.old pages.now (sets_within watch west east south north) [])
        (left result desk.new pages.now []) }
{
    let area = Rectangle {
        west,
        east,
        south,
        north,
    };
    watching::set(desk, pages, watch, area)
}

// Clears a watch.
pub fn watch_clear(desk: &mut Desk, pages: &[u8], watch: u16) -> Answer
    ensures { Answers
        (handed desk.old pages.now (clears watch) [])
        (left result desk.new pages.now []) }
{
    watching::clear(desk, pages, watch)
}

// ---- files

// Writes all radios on into a file: neither desk nor pages change.
pub fn csv_write(desk: &Desk, pages: &[u8], buffer: &mut [u8]) -> Answer
    ensures { Answers
        (handed desk.now pages.now writes buffer.old)
        (left result desk.now pages.now buffer.new) }
{
    spreadsheet_write::write_lent(desk, pages, buffer)
}

// Reads such a file into a fresh store.
pub fn csv_read(desk: &mut Desk, pages: &mut [u8], file: &[u8]) -> Answer
    ensures { Reads file.now
        (found desk.old pages.old)
        (made result desk.new pages.new) }
{
    spreadsheet_read::read_lent(desk, pages, file)
}

// ---- a fresh store, and the test

// A fresh store on a desk that is lent and altered there.
pub fn begin(desk: &mut Desk, pages: &mut [u8]) -> Answer
    ensures { Begins (found desk.old pages.old) (made result desk.new pages.new) }
{
    fresh::begin(desk, pages)
}

// Whether desk and pages are those of a sound store: the test that each call makes first.
pub fn sound(desk: &Desk, pages: &[u8]) -> bool
    ensures { (result ≡ true → Sound desk.now pages.now) × (Sound desk.now pages.now → result ≡ true) }
{
    sound::sound(desk, pages)
}
