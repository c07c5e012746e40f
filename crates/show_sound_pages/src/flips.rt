// Every bit of a page's header, flipped.
ghost use Rattle.std.specs.Prelude.{◌≡◌, ◌<◌, ◌≤◌, length};
ghost use Rattle.terms.specs.Terms.{pages};
ghost use Rattle.page.specs.Buffer.{buffer_bytes};

use desk::Desk;
use page::{HEAD_BYTES, PAGE_BYTES};
use show_made::damage::say_count;
use show_made::small::{LOW_FIRST, LOW_FURTHER};
use std::io;

// Whether the store is still taken for sound with the bits of the byte at `at` flipped.
fn taken_with(desk: &Desk, buffer: &mut [u8], at: usize, bits: u8) -> bool
    requires { at < length buffer.old }
{
    buffer[at] ^= bits;
    let good = sound::sound(desk, buffer);
    buffer[at] ^= bits;
    good
}

// How many of the 64 flips in the header of page p are.
fn flips_of(desk: &Desk, buffer: &mut [u8], p: usize) -> usize
    requires { (length buffer.old ≡ buffer_bytes) × (p < pages) }
    ensures { result ≤ 64 }
{
    let mut taken = 0;
    for i in 0..8 * HEAD_BYTES {
        if taken_with(desk, buffer, PAGE_BYTES * p + i / 8, 1 << (i % 8)) {
            taken += 1;
        }
    }
    taken
}

fn show_page(
    rt: &impl Print,
    name: &str,
    desk: &Desk,
    buffer: &mut [u8],
    p: usize,
) -> io::Result<()>
    requires { (length buffer.old ≡ buffer_bytes) × (p < pages) }
{
    say_count(rt, name.as_bytes(), flips_of(desk, buffer, p))
}

// None is: the used bytes follow from the entries, for every entry has a radio and the bytes past them are zero; kind and cell follow from the chain; and with
// another next page some page is in no chain or in two.
pub fn show_flips(rt: &impl Print, desk: &Desk, buffer: &mut [u8]) -> io::Result<()>
    requires { length buffer.old ≡ buffer_bytes }
{
    show_page(
        rt,
        "flips of a first page's header",
        desk,
        buffer,
        LOW_FIRST,
    )?;
    show_page(
        rt,
        "flips of a further page's header",
        desk,
        buffer,
        LOW_FURTHER,
    )?;
    show_page(rt, "flips of a free page's header", desk, buffer, 64)
}
