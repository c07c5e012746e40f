// Where each radio's memo line stands, in a table by radio, and an entry judged by the line that the table names: the memo is not searched for it.
#![tactic(auto)]

ghost use Rattle.std.specs.Prelude.{◌≡◌, ◌+◌, ◌<◌, ◌≤◌};
ghost use Rattle.terms.specs.Terms.{max_radio};
ghost use Rattle.lists.specs.Rows.{Rising, UpTo};
ghost use Rattle.lists.specs.Tests.{one_if};
ghost use Rattle.entries.specs.Entries.{row_of};
ghost use Rattle.rules.specs.Sweep.{stale};
ghost use Rattle.desk.specs.Layout.{line_slots};
ghost use Rattle.desk.specs.Held.{memo_in};
ghost use Rattle.memo.specs.Memo.{lines_of};
ghost use Rattle.memo_index.specs.Index.{table_size, Blank, Named, judged};

use desk::{Desk, Line};
use entries::Entry;
use memo::is_elsewhere;
use terms::{MAX_RADIO, Place};

// A number for each radio, and one for 0.
pub const RADIOS: usize = MAX_RADIO as usize + 1;

// Where a radio's line stands in the memo counts from 1, in two bytes a radio: an Option would take four.
pub const NO_LINE: u16 = 0;

// ---- where the lines stand

pub fn radio_index(radio: u16) -> usize
    requires { radio ≤ max_radio }
    ensures { (result ≡ radio) × (result < table_size) }
{
    radio as usize
}

pub fn place_from_one(i: usize) -> u16
    requires { i < line_slots }
    ensures { result ≡ i + 1 }
{
    (i + 1) as u16
}

// Each line writes where it stands.
pub fn index_lines(memo: &[Line; Desk::LINE_SLOTS], n: u16, lines: &mut [u16; RADIOS])
    requires { (n ≤ line_slots) × Rising 0 (lines_of (memo_in n memo.now)) × UpTo max_radio (lines_of (memo_in n memo.now)) × Blank lines.old }
    ensures { Named memo.now lines.new × (judged memo.now lines.new ≡ stale (lines_of (memo_in n memo.now))) }
{
    for (i, line) in memo[..n as usize].iter().enumerate() {
        let k = radio_index(line.radio);
        lines[k] = place_from_one(i);
    }
}

// ---- an entry, judged

// Whether an entry is stale by the line that the table names.
pub fn is_stale(e: Entry, memo: &[Line; Desk::LINE_SLOTS], lines: &[u16; RADIOS]) -> bool
    requires { (e.radio ≤ max_radio) × Named memo.now lines.now }
    ensures { result ≡ judged memo.now lines.now (row_of e) }
{
    let k = radio_index(e.radio);
    let at = lines[k];
    if at == NO_LINE {
        return false;
    }
    let line = memo[at as usize - 1];
    let place = Place {
        east: e.east,
        north: e.north,
    };
    is_elsewhere(line, place)
}

// 1 if an entry is stale by the line that the table names, else 0.
pub fn judge_entry(e: Entry, memo: &[Line; Desk::LINE_SLOTS], lines: &[u16; RADIOS]) -> u16
    requires { (e.radio ≤ max_radio) × Named memo.now lines.now }
    ensures { (result ≡ one_if (judged memo.now lines.now (row_of e))) × (result ≤ 1) }
{
    u16::from(is_stale(e, memo, lines))
}
