// The desk's calls for programs in Rust or C, with the test of soundness: what include/boragefile.h declares. Each is that of `boragefile`, under the same
// contract.
#![tactic(auto)]

ghost use Rattle.std.specs.Prelude.{true, [], ◌≡◌};
ghost use Rattle.rules.specs.Calls.{hands, clears, writes};
ghost use Rattle.desk.specs.Call.{handed, left, Answers};
ghost use Rattle.desk.specs.Sound.{Sound};
ghost use Rattle.desk.specs.Making.{found, made};
ghost use Rattle.fresh.specs.Begin.{Begins};
ghost use Rattle.spreadsheet.specs.Call.{Reads};
ghost use Rattle.watching.specs.Watching.{sets_within};

use desk::{Answer, Desk};

// A fresh store.
#[unsafe(no_mangle)]
pub extern "C" fn boragefile_begin(desk: &mut Desk, pages: &mut [u8]) -> Answer
    ensures { Begins
        (found desk.old pages.old)
        (made result desk.new pages.new) }
{
    boragefile::begin(desk, pages)
}

// One record handed in.
#[unsafe(no_mangle)]
pub extern "C" fn boragefile_call(
    desk: &mut Desk,
    pages: &mut [u8],
    bytes: &[u8],
    buffer: &mut [u8],
) -> Answer
    ensures { Answers
        (handed desk.old pages.old (hands bytes.now) buffer.old)
        (left result desk.new pages.new buffer.new) }
{
    boragefile::call(desk, pages, bytes, buffer)
}

// A watch set.
#[unsafe(no_mangle)]
pub extern "C" fn boragefile_watch_set(
    desk: &mut Desk,
    pages: &[u8],
    watch: u16,
    west: u16,
    east: u16,
    south: u16,
    north: u16,
) -> Answer
    ensures { Answers
        (handed desk.old pages.now (sets_within watch west east south north) [])
        (left result desk.new pages.now []) }
{
    boragefile::watch_set(desk, pages, watch, west, east, south, north)
}

// A watch cleared.
#[unsafe(no_mangle)]
pub extern "C" fn boragefile_watch_clear(desk: &mut Desk, pages: &[u8], watch: u16) -> Answer
    ensures { Answers
        (handed desk.old pages.now (clears watch) [])
        (left result desk.new pages.now []) }
{
    boragefile::watch_clear(desk, pages, watch)
}

// The file of all radios on.
#[unsafe(no_mangle)]
pub extern "C" fn boragefile_csv_write(desk: &Desk, pages: &[u8], buffer: &mut [u8]) -> Answer
    ensures { Answers
        (handed desk.now pages.now writes buffer.old)
        (left result desk.now pages.now buffer.new) }
{
    boragefile::csv_write(desk, pages, buffer)
}

// The store of a file.
#[unsafe(no_mangle)]
pub extern "C" fn boragefile_csv_read(desk: &mut Desk, pages: &mut [u8], file: &[u8]) -> Answer
    ensures { Reads file.now
        (found desk.old pages.old)
        (made result desk.new pages.new) }
{
    boragefile::csv_read(desk, pages, file)
}

// Whether desk and pages are those of a sound store.
#[unsafe(no_mangle)]
pub extern "C" fn boragefile_sound(desk: &Desk, pages: &[u8]) -> bool
    ensures { (result ≡ true → Sound desk.now pages.now) × (Sound desk.now pages.now → result ≡ true) }
{
    boragefile::sound(desk, pages)
}
