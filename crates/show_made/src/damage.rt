// One damage at a time: what the test says of it; the pages are mended again.
ghost use Rattle.std.specs.Prelude.{◌≡◌, ◌+◌, ◌<◌, ◌≤◌, length};
ghost use Rattle.terms.specs.Terms.{pages, field_bytes};
ghost use Rattle.page.specs.Page.{page_bytes};
ghost use Rattle.page.specs.Buffer.{buffer_bytes};

use desk::Desk;
use page::PAGE_BYTES;
use std::io;
use std::io::Write;

// The names are bytes: text would ask more of callers.
fn say(rt: &impl Print, name: &[u8], good: bool) -> io::Result<()> {
    let word = if good { "sound" } else { "unsound" };
    let mut out = io::writer(rt);
    out.write_all(name)?;
    writeln!(out, ": {word}")
}

pub fn say_count(rt: &impl Print, name: &[u8], taken: usize) -> io::Result<()> {
    let mut out = io::writer(rt);
    out.write_all(name)?;
    writeln!(out, " taken for sound: {taken} of 64")
}

pub fn try_desk(rt: &impl Print, name: &[u8], desk: &Desk, buffer: &[u8]) -> io::Result<()> {
    say(rt, name, sound::sound(desk, buffer))
}

// ---- the pages

// Where the fields stand in a page.
pub const USED_AT: usize = 0;

pub const KIND_AT: usize = 2;

pub const NEXT_AT: usize = 4;

pub const CELL_AT: usize = 6;

pub const RADIO_AT: usize = 8;

pub const EAST_AT: usize = 10;

pub const LOW_HALF_AT: usize = 14;

pub const HIGH_HALF_AT: usize = 16;

pub const THIRD_RADIO_AT: usize = 28;

pub const LAST_RADIO_AT: usize = 318;

pub const LAST_AT: usize = 326;

// The field at `at` is v; what it was.
fn exchange(buffer: &mut [u8], at: usize, v: u16) -> u16
    requires { at + field_bytes ≤ length buffer.old }
    ensures { length buffer.new ≡ length buffer.old }
{
    let was = fields::read(buffer, at);
    fields::write(buffer, at, v);
    was
}

// With another value in the field at `at` of page p.
pub fn try_field(
    rt: &impl Print,
    name: &[u8],
    desk: &Desk,
    buffer: &mut [u8],
    p: usize,
    at: usize,
    v: u16,
) -> io::Result<()>
    requires { (length buffer.old ≡ buffer_bytes) × (p < pages) × (at + field_bytes ≤ page_bytes) }
    ensures { length buffer.new ≡ buffer_bytes }
{
    let place = PAGE_BYTES * p + at;
    let was = exchange(buffer, place, v);
    let told = try_desk(rt, name, desk, buffer);
    exchange(buffer, place, was);
    told
}

// With two fields exchanged.
pub fn try_two(
    rt: &impl Print,
    name: &[u8],
    desk: &Desk,
    buffer: &mut [u8],
    a: usize,
    b: usize,
) -> io::Result<()>
    requires { (length buffer.old ≡ buffer_bytes) × (a + field_bytes ≤ buffer_bytes) × (b + field_bytes ≤ buffer_bytes) }
    ensures { length buffer.new ≡ buffer_bytes }
{
    let one = fields::read(buffer, a);
    let two = exchange(buffer, b, one);
    exchange(buffer, a, two);
    let told = try_desk(rt, name, desk, buffer);
    exchange(buffer, a, one);
    exchange(buffer, b, two);
    told
}
