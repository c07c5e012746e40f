// The clauses on radios, memo and entries together.
use super::try_with;
use desk::{Desk, Line, Report};
use show_made::small;
use std::io;
use terms::Place;

pub fn show_radios(rt: &impl Print, desk: &Desk, buffer: &[u8]) -> io::Result<()> {
    show_on(rt, desk, buffer)?;
    show_off(rt, desk, buffer)?;
    show_memo(rt, desk, buffer)?;
    show_missed(rt, desk, buffer)
}

// "Each radio on has one entry that isn't stale or a waiting report marked new, and not both."
fn show_on(rt: &impl Print, desk: &Desk, buffer: &[u8]) -> io::Result<()> {
    try_with(rt, "radio on with neither", desk, buffer, |d| {
        desk::put_report(&mut d.waiting, 1, small::report(0, 0, 0, 0));
        d.parts.waiting = 1;
    })?;
    try_with(rt, "radio on with both", desk, buffer, |d| {
        let report = desk::report_at(&d.waiting, 0);
        desk::put_report(&mut d.waiting, 0, Report { new: 1, ..report });
    })?;
    try_with(rt, "radio on with two entries", desk, buffer, |d| {
        d.memo[1] = Line::UNUSED;
        d.parts.lines = 1;
    })
}

// "A radio off has neither."
fn show_off(rt: &impl Print, desk: &Desk, buffer: &[u8]) -> io::Result<()> {
    let mut off = *desk;
    off.on[35] = 0;
    off.parts.on = 35;
    try_with(rt, "radio off with a new report", &off, buffer, |d| {})?;
    try_with(rt, "radio off with an entry", &off, buffer, |d| {
        d.on[34] = 400;
    })
}

// "Memo lines by rising radio"; marked 1 or 0, and the place zero where there is none
fn show_memo(rt: &impl Print, desk: &Desk, buffer: &[u8]) -> io::Result<()> {
    try_with(rt, "lines falling", desk, buffer, |d| d.memo.swap(0, 1))?;
    try_with(rt, "two lines of a radio", desk, buffer, |d| {
        add_line(d, small::line_7());
    })?;
    try_with(rt, "line marked 2", desk, buffer, |d| d.memo[1].placed = 2)?;
    try_with(rt, "line of none with a place", desk, buffer, |d| {
        d.memo[0].north = 1;
    })
}

// "missed counts of 1 or more equal to that radio's stale entries, an entry being judged by the line's place"
fn show_missed(rt: &impl Print, desk: &Desk, buffer: &[u8]) -> io::Result<()> {
    for (name, missed) in [("missed count 0", 0), ("missed count 1, none stale", 1)] {
        try_with(rt, name, desk, buffer, |d| {
            add_line(d, Line::new(5, missed, place(40000, 5)));
        })?;
    }
    for (name, missed, east, north) in [
        ("missed count 2, one stale", 2, 100, 200),
        ("line with another place", 1, 100, 201),
        ("line with the place of the other entry", 1, 40000, 10),
    ] {
        try_with(rt, name, desk, buffer, |d| {
            d.memo[1] = Line::new(10, missed, place(east, north));
        })?;
    }
    Ok(())
}

fn place(east: u16, north: u16) -> Option<Place> {
    Some(Place { east, north })
}

// With a line more, before the two.
fn add_line(desk: &mut Desk, line: Line) {
    desk.memo.copy_within(0..2, 1);
    desk.memo[0] = line;
    desk.parts.lines = 3;
}
