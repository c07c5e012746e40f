// The clauses that look at the desk alone.
ghost use Rattle.std.specs.Prelude.{◌≡◌, length};
ghost use Rattle.page.specs.Buffer.{buffer_bytes};

use super::try_with;
use desk::{Desk, Report};
use show_made::damage::{CELL_AT, try_field};
use show_made::small;
use show_made::small::{CUT, HIGH_FIRST, HIGHEST};
use std::io;

pub fn show_desk(rt: &impl Print, desk: &Desk, buffer: &mut [u8]) -> io::Result<()>
    requires { length buffer.old ≡ buffer_bytes }
    ensures { length buffer.new ≡ buffer_bytes }
{
    show_limits(rt, desk, buffer)?;
    show_cuts(rt, desk, buffer)?;
    show_tiles(rt, desk, buffer)?;
    show_numbers(rt, desk, buffer)?;
    show_waiting(rt, desk, buffer)?;
    show_minutes(rt, desk, buffer)?;
    show_unused(rt, desk, buffer)?;
    show_tally(rt, desk, buffer)
}

// "Every limit above holds"
fn show_limits(rt: &impl Print, desk: &Desk, buffer: &[u8]) -> io::Result<()> {
    try_with(rt, "16 east cuts", desk, buffer, |d| {
        d.parts.frame.easts = small::cuts(16, CUT, 0);
    })?;
    try_with(rt, "16 north cuts", desk, buffer, |d| {
        d.parts.frame.norths = small::cuts(16, 0, 0);
    })?;
    try_with(rt, "65 cells", desk, buffer, |d| d.parts.frame.cells = 65)?;
    try_with(rt, "radio 4096 on", desk, buffer, |d| {
        d.on[35] = 4096;
        desk::put_report(&mut d.waiting, 1, small::report(4096, 40000, 500, 1));
    })?;
    try_with(rt, "513 on", desk, buffer, |d| {
        d.on[35] = 4096;
        d.parts.on = 513;
    })
}

// "cuts are rising, from 1 to 65,535"
fn show_cuts(rt: &impl Print, desk: &Desk, buffer: &[u8]) -> io::Result<()> {
    for (name, a, b) in [
        ("cut at 0", 0, CUT),
        ("cut twice", CUT, CUT),
        ("cuts falling", 50000, CUT),
        ("cut more", 20000, CUT),
    ] {
        try_with(rt, name, desk, buffer, |d| {
            d.parts.frame.easts = small::cuts(2, a, b);
        })?;
    }
    try_with(rt, "north cut", desk, buffer, |d| {
        d.parts.frame.norths = small::cuts(1, 1, 0);
    })
}

// "The cells tile the square": rectangles of whole memory cells, each place in one
fn show_tiles(rt: &impl Print, desk: &Desk, buffer: &[u8]) -> io::Result<()> {
    try_edges(rt, "edge beside the cut", desk, buffer, CUT - 2, CUT - 1)?;
    try_edges(rt, "cells overlap", desk, buffer, CUT - 1, 0)?;
    let mut cut = *desk;
    cut.parts.frame.easts = small::cuts(2, 20000, CUT);
    try_edges(rt, "gap between cells", &cut, buffer, 19999, CUT)?;
    try_edges(rt, "cells meet at the cut", &cut, buffer, CUT - 1, CUT)
}

// With other edges where the cells meet.
fn try_edges(
    rt: &impl Print,
    name: &str,
    desk: &Desk,
    buffer: &[u8],
    east: u16,
    west: u16,
) -> io::Result<()> {
    try_with(rt, name, desk, buffer, |d| {
        d.cells[0].east = east;
        d.cells[1].west = west;
    })
}

// "numbers from 0 to 63", "The round names each cell once."
fn show_numbers(rt: &impl Print, desk: &Desk, buffer: &mut [u8]) -> io::Result<()>
    requires { length buffer.old ≡ buffer_bytes }
    ensures { length buffer.new ≡ buffer_bytes }
{
    for (name, number) in [
        ("cell 63", 63),
        ("cell 64", 64),
        ("cell 0 twice in the round", 0),
    ] {
        try_number(rt, name, desk, buffer, number)?;
    }
    show_empty(rt, desk, buffer)
}

// With another number for the high cell, in the directory and on its page.
fn try_number(
    rt: &impl Print,
    name: &str,
    desk: &Desk,
    buffer: &mut [u8],
    number: u16,
) -> io::Result<()>
    requires { length buffer.old ≡ buffer_bytes }
    ensures { length buffer.new ≡ buffer_bytes }
{
    let mut numbered = *desk;
    numbered.cells[1].number = number;
    try_field(
        rt,
        name.as_bytes(),
        &numbered,
        buffer,
        HIGH_FIRST,
        CELL_AT,
        number,
    )
}

// A third cell on the first free page, its west edge past its east edge: the other two still tile the square.
fn show_empty(rt: &impl Print, desk: &Desk, buffer: &mut [u8]) -> io::Result<()>
    requires { length buffer.old ≡ buffer_bytes }
    ensures { length buffer.new ≡ buffer_bytes }
{
    small::write_none(buffer, 1, 2);
    let told = try_with(rt, "cell without a place", desk, buffer, |d| {
        d.cells[2] = small::stripe(2, CUT, CUT - 1, 1);
        d.parts.frame.cells = 3;
        d.parts.frame.free = 2;
    });
    page_write::free_page(buffer, 1, 2);
    told
}

// "One waiting report a radio, by rising radio"; "An unmarked waiting report belongs to a radio on."
fn show_waiting(rt: &impl Print, desk: &Desk, buffer: &[u8]) -> io::Result<()> {
    for (name, radio) in [
        ("report out of its place", 30),
        ("two reports of a radio", 20),
        ("unmarked report of a radio off", 7),
        ("unmarked report of a radio on", 10),
    ] {
        try_with(rt, name, desk, buffer, |d| add_report(d, radio))?;
    }
    try_with(rt, "mark 2", desk, buffer, |d| {
        let report = desk::report_at(&d.waiting, 1);
        desk::put_report(&mut d.waiting, 1, Report { new: 2, ..report });
    })
}

// With an unmarked report more, before the two.
fn add_report(desk: &mut Desk, radio: u16) {
    let first = desk::report_at(&desk.waiting, 0);
    let second = desk::report_at(&desk.waiting, 1);
    desk::put_report(&mut desk.waiting, 0, small::report(radio, 1, 1, 0));
    desk::put_report(&mut desk.waiting, 1, first);
    desk::put_report(&mut desk.waiting, 2, second);
    desk.parts.waiting = 3;
}

// "a sound store has no entry or waiting report above it"
fn show_minutes(rt: &impl Print, desk: &Desk, buffer: &[u8]) -> io::Result<()> {
    for (name, minute) in [
        ("report at the highest minute", HIGHEST),
        ("report above it", HIGHEST + 1),
        ("report above it by a half", HIGHEST + 65536),
        ("report below it", 65535),
    ] {
        try_with(rt, name, desk, buffer, |d| {
            let report = desk::report_at(&d.waiting, 1);
            desk::put_report(&mut d.waiting, 1, small::told_at(report, minute));
        })?;
    }
    for (name, highest) in [
        ("higher minute", HIGHEST + 1),
        ("lower minute", HIGHEST - 1),
    ] {
        try_with(rt, name, desk, buffer, |d| d.parts.highest = highest)?;
    }
    Ok(())
}

// Slots past the count are zero.
fn show_unused(rt: &impl Print, desk: &Desk, buffer: &[u8]) -> io::Result<()> {
    try_with(rt, "number past the cuts", desk, buffer, |d| {
        d.parts.frame.easts = small::cuts(1, CUT, 50000);
    })?;
    try_with(rt, "number past the cells", desk, buffer, |d| {
        d.cells[63] = small::stripe(0, 0, 0, 0);
    })?;
    try_with(rt, "number past the reports", desk, buffer, |d| {
        desk::put_report(&mut d.waiting, 127, small::report(0, 0, 0, 1));
    })?;
    try_with(rt, "minute past the reports", desk, buffer, |d| {
        let report = small::told_at(small::report(0, 0, 0, 0), 65536);
        desk::put_report(&mut d.waiting, 127, report);
    })?;
    try_with(rt, "number past the lines", desk, buffer, |d| {
        d.memo[1150].north = 1;
    })?;
    try_with(rt, "number past the radios on", desk, buffer, |d| {
        d.on[511] = 1;
    })
}

// "c is 0 to 15."
fn show_tally(rt: &impl Print, desk: &Desk, buffer: &[u8]) -> io::Result<()> {
    for (name, c) in [("c 0", 0), ("c 15", 15), ("c 16", 16)] {
        try_with(rt, name, desk, buffer, |d| d.parts.tally = c)?;
    }
    Ok(())
}
