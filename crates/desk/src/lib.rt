// The desk as the serving program holds it, and a fresh one. What its arrays hold past the counts is zero.
#![tactic(auto)]

ghost use Rattle.std.specs.Prelude.{◌≡◌, ◌<◌, get_or, set, option_map};
ghost use Rattle.terms.specs.Refusals.{number_of};
ghost use Rattle.terms.specs.Values.{place_of};
ghost use Rattle.rules.specs.Limits.{full_memory};
ghost use Rattle.rules.specs.Watches.{fresh_watched};
ghost use Rattle.desk.specs.Layout.{desk_of, no_report, line_with};
ghost use Rattle.desk.specs.Views.{every_report, last_of};

use terms::{Place, Refusal};

// The cuts of one direction, rising.
#[repr(C)]
#[derive(Clone, Copy)]
pub struct CutList {
    pub n: u16,
    pub at: [u16; Desk::MAX_CUTS],
}

// A cell of the directory: its number, its edges and the first page of its chain.
#[repr(C)]
#[derive(Clone, Copy, Debug, PartialEq, Eq)]
pub struct Slot {
    pub number: u16,
    pub west: u16,
    pub east: u16,
    pub south: u16,
    pub north: u16,
    pub first: u16,
}

// A waiting report; `new` is 1 where it is marked new, else 0; `low` and `high` are the halves of its minute.
#[derive(Clone, Copy)]
pub struct Report {
    pub radio: u16,
    pub east: u16,
    pub north: u16,
    pub new: u16,
    pub low: u16,
    pub high: u16,
}

// A memo line; `placed` is 1 where it has a place, and 0, with the place zero, where it has none.
#[repr(C)]
#[derive(Clone, Copy, Debug, PartialEq, Eq)]
pub struct Line {
    pub radio: u16,
    pub missed: u16,
    pub placed: u16,
    pub east: u16,
    pub north: u16,
}

// A watch; `set` is 1 where it is set, and the members have a bit for each radio, set where it is one. Where none is set, all is zero.
#[repr(C)]
#[derive(Clone, Copy, Debug, PartialEq, Eq)]
pub struct Watch {
    pub set: u16,
    pub west: u16,
    pub east: u16,
    pub south: u16,
    pub north: u16,
    pub members: [u16; Desk::MEMBER_WORDS],
}

// The grid but for the directory's array: the cuts, how many cells there are, and the front of the free chain.
#[repr(C)]
#[derive(Clone, Copy)]
pub struct Frame {
    pub easts: CutList,
    pub norths: CutList,
    pub cells: u16,
    pub free: u16,
}

// The desk but for its arrays: the grid's frame, how many reports wait, memo lines there are and radios are on, the tally, and the highest minute of an accepted
// sign-on, report or sign-off.
#[repr(C)]
#[derive(Clone, Copy)]
pub struct Parts {
    pub frame: Frame,
    pub waiting: u16,
    pub lines: u16,
    pub on: u16,
    pub tally: u16,
    pub highest: u32,
}

// As C has it, whatever it holds: no field excludes a value.
#[repr(C)]
#[derive(Clone, Copy)]
pub struct Desk {
    pub parts: Parts,
    // the directory, in the order of the round, its front first
    pub cells: [Slot; Desk::MAX_CELLS],
    // the waiting reports, by rising radio: all radios, then all easts, all norths, all marks, and the minutes' lower and higher halves, so that a test of
    // places reads these alone
    pub waiting: [u16; Desk::WAITING_WORDS],
    // the memo, by rising radio
    pub memo: [Line; Desk::LINE_SLOTS],
    // the radios on, rising
    pub on: [u16; Desk::MAX_ON],
    pub watches: [Watch; Desk::MAX_WATCHES],
}

// What a call answers: 0 or the number of the check that turned it down, the watches that gained, or lost, the radio of an accepted record, a bit for each,
// and what it counted: a file may have any number of lines.
#[repr(C)]
#[derive(Clone, Copy)]
pub struct Answer {
    pub number: u16,
    pub gained: u16,
    pub lost: u16,
    pub count: u64,
}

// A number, and 0 for all else: "these, and whatever later requests add to the answer, are 0 where nothing else is said".
pub fn numbered(number: u16) -> Answer
    ensures { result ≡ record { number = number; count = 0; gained = 0; lost = 0 } }
{
    counted(number, 0)
}

impl Answer {
    // What turns a call down answers: its number, and 0 for all else.
    pub fn refused(refusal: Refusal) -> Answer
        ensures { result ≡ record { number = number_of refusal; count = 0; gained = 0; lost = 0 } }
    {
        numbered(refusal.number())
    }
}

// A number and a count.
pub fn counted(number: u16, count: u64) -> Answer
    ensures { result ≡ record { number = number; count = count; gained = 0; lost = 0 } }
{
    Answer {
        number,
        gained: 0,
        lost: 0,
        count,
    }
}

// The rectangle of a range or a watch.
#[derive(Clone, Copy)]
pub struct Rectangle {
    pub west: u16,
    pub east: u16,
    pub south: u16,
    pub north: u16,
}

impl Slot {
    pub const UNUSED: Slot = Slot {
        number: 0,
        west: 0,
        east: 0,
        south: 0,
        north: 0,
        first: 0,
    };
}

impl Report {
    pub const UNUSED: Report = Report {
        radio: 0,
        east: 0,
        north: 0,
        new: 0,
        low: 0,
        high: 0,
    };
}

impl Line {
    // What `placed` holds: C reads it as a number.
    const UNPLACED: u16 = 0;

    const PLACED: u16 = 1;

    pub const UNUSED: Line = Line {
        radio: 0,
        missed: 0,
        placed: Line::UNPLACED,
        east: 0,
        north: 0,
    };

    // A line with a place, or with none.
    pub fn new(radio: u16, missed: u16, place: Option<Place>) -> Line
        ensures { result ≡ line_with radio missed (option_map place_of place) }
    {
        match place {
            Some(place) => Line {
                radio,
                missed,
                placed: Line::PLACED,
                east: place.east,
                north: place.north,
            },
            None => Line {
                radio,
                missed,
                placed: Line::UNPLACED,
                east: 0,
                north: 0,
            },
        }
    }

    // Its place, where it has one.
    pub fn place(self) -> Option<Place>
        ensures { option_map place_of result ≡ last_of self }
    {
        if self.placed == Line::UNPLACED {
            return None;
        }
        Some(Place {
            east: self.east,
            north: self.north,
        })
    }
}

impl Watch {
    pub const UNSET: Watch = Watch {
        set: 0,
        west: 0,
        east: 0,
        south: 0,
        north: 0,
        members: [0; Desk::MEMBER_WORDS],
    };
}

impl Desk {
    pub const MAX_CELLS: usize = 64;

    pub const MAX_CUTS: usize = 15;

    pub const MAX_ON: usize = terms::MAX_ON;

    pub const MAX_WAITING: usize = 127;

    // One more than may wait between two calls: the report that a call brings.
    pub const WAITING_SLOTS: usize = Desk::MAX_WAITING + 1;

    pub const REPORT_FIELDS: usize = 6;

    pub const WAITING_WORDS: usize = Desk::REPORT_FIELDS * Desk::WAITING_SLOTS;

    pub const MAX_LINES: usize = 1150;

    // One line more than that is needed in the middle of a call; with two the desk fills its alignment, and no byte of it is no field's.
    pub const LINE_SLOTS: usize = Desk::MAX_LINES + 2;

    pub const MAX_WATCHES: usize = 16;

    // A bit for each number up to the greatest radio's.
    pub const MEMBER_WORDS: usize = 256;

    pub const FULL_BOX: usize = 8;

    pub const SWEEP_EVERY: u16 = 16;

    pub const JOIN_ENTRIES: usize = 24;

    pub const LAST_METRE: u16 = 65535;

    // "A fresh store has no cut, one cell (0) on page 0, and pages 1 to 127 free in that order.", and no watch is set.
    pub fn fresh() -> Desk
        ensures { result ≡ desk_of fresh_watched }
    {
        let mut cells = [Slot::UNUSED; Desk::MAX_CELLS];
        cells[0] = Slot {
            number: 0,
            west: 0,
            east: Desk::LAST_METRE,
            south: 0,
            north: Desk::LAST_METRE,
            first: 0,
        };
        Desk {
            parts: Parts {
                frame: Frame {
                    easts: CutList {
                        n: 0,
                        at: [0; Desk::MAX_CUTS],
                    },
                    norths: CutList {
                        n: 0,
                        at: [0; Desk::MAX_CUTS],
                    },
                    cells: 1,
                    free: 1,
                },
                waiting: 0,
                lines: 0,
                on: 0,
                tally: 0,
                highest: 0,
            },
            cells,
            waiting: [0; Desk::WAITING_WORDS],
            memo: [Line::UNUSED; Desk::LINE_SLOTS],
            on: [0; Desk::MAX_ON],
            watches: [Watch::UNSET; Desk::MAX_WATCHES],
        }
    }
}

// ---- a report in the array of those that wait

pub fn report_at(waiting: &[u16; Desk::WAITING_WORDS], i: usize) -> Report
    requires { i < full_memory }
    ensures { result ≡ get_or (every_report waiting.now) i no_report }
{
    Report {
        radio: waiting[i],
        east: waiting[Desk::WAITING_SLOTS + i],
        north: waiting[2 * Desk::WAITING_SLOTS + i],
        new: waiting[3 * Desk::WAITING_SLOTS + i],
        low: waiting[4 * Desk::WAITING_SLOTS + i],
        high: waiting[5 * Desk::WAITING_SLOTS + i],
    }
}

// Every other report is kept.
pub fn put_report(waiting: &mut [u16; Desk::WAITING_WORDS], i: usize, report: Report)
    requires { i < full_memory }
    ensures { every_report waiting.new ≡ set (every_report waiting.old) i report }
{
    waiting[i] = report.radio;
    waiting[Desk::WAITING_SLOTS + i] = report.east;
    waiting[2 * Desk::WAITING_SLOTS + i] = report.north;
    waiting[3 * Desk::WAITING_SLOTS + i] = report.new;
    waiting[4 * Desk::WAITING_SLOTS + i] = report.low;
    waiting[5 * Desk::WAITING_SLOTS + i] = report.high;
}
