// Many that wait: "at most 127, fewer than 8 a memory cell".
ghost use Rattle.std.specs.Prelude.{◌≡◌, ◌<◌, ◌≤◌, length};
ghost use Rattle.page.specs.Buffer.{buffer_bytes};

use super::small;
use desk::{CutList, Desk, Report};
use std::array;
use terms::PAGES;

// As many metres as a stripe has where there are 15 cuts.
const BOX: usize = 4096;

fn all_cuts() -> CutList {
    CutList {
        n: 15,
        at: array::from_fn(|i| (BOX * (i + 1)) as u16),
    }
}

// The coordinate of the k-th of 16, a stripe apart or all at one.
fn spread(k: usize, apart: bool) -> u16
    requires { k < 16 }
{
    if apart { (BOX * k) as u16 } else { 0 }
}

// The i-th report: of radio i + 1, since its sign-on, in rows of 16.
fn report(i: usize, apart: bool) -> Report
    requires { i < 128 }
{
    small::report(
        (i + 1) as u16,
        spread(i % 16, apart),
        spread(i / 16, apart),
        1,
    )
}

// The waiting reports of n radios.
pub fn crowd(n: usize, apart: bool) -> [u16; Desk::WAITING_WORDS]
    requires { n ≤ 128 }
{
    let mut waiting = [0; Desk::WAITING_WORDS];
    for i in 0..n {
        desk::put_report(&mut waiting, i, report(i, apart));
    }
    waiting
}

// The radios from 1 to n.
pub fn first_on(n: usize) -> [u16; Desk::MAX_ON]
    requires { n ≤ 128 }
{
    array::from_fn(|i| if i < n { i as u16 + 1 } else { 0 })
}

// A fresh desk with every cut.
pub fn cut_desk() -> Desk {
    let mut desk = Desk::fresh();
    desk.parts.frame.easts = all_cuts();
    desk.parts.frame.norths = all_cuts();
    desk
}

// The pages of a fresh store.
pub fn write_fresh(buffer: &mut [u8])
    requires { length buffer.old ≡ buffer_bytes }
    ensures { length buffer.new ≡ buffer_bytes }
{
    small::link(buffer, 1, PAGES - 1);
    small::write_none(buffer, 0, 0);
}
