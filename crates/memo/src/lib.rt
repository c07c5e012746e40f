// The memo in the desk's array: lines by rising radio, unused slots zero. The array is lent, with the number of lines beside it: no call copies a memo.
#![tactic(auto)]

ghost use Rattle.std.specs.Prelude.{not, Some, ◌≡◌, IfOk, IfErr, map, option_map};
ghost use Rattle.terms.specs.Values.{place_of};
ghost use Rattle.lists.specs.Rows.{Rising, IsAt, IsGapFor, alter};
ghost use Rattle.rules.specs.Flush.{placed, raised};
ghost use Rattle.rules.specs.Sweep.{is_at};
ghost use Rattle.desk.specs.Layout.{memo_of};
ghost use Rattle.desk.specs.Held.{memo_in};
ghost use Rattle.desk.specs.Views.{last_of};
ghost use Rattle.memo.specs.Memo.{row_of, lines_of, GoodMemo, RoomyMemo, MissFits};

use desk::{Desk, Line};
use terms::Place;

// Whether a line has another place than this, or none: by it an entry with this place is stale.
#[tactic(auto, unfolding(lists::specs::Tests::both))]
pub fn is_elsewhere(line: Line, place: Place) -> bool
    ensures { result ≡ not (is_at (last_of line) (place_of place)) }
{
    line.place() != Some(place)
}

// Where the line of `radio` stands, or would.
fn lookup(lines: &[Line], radio: u16) -> Result<usize, usize>
    requires { Rising 0 (map row_of lines.now) }
    ensures held { IfOk result (IsAt (map row_of lines.now) radio) }
    ensures missing { IfErr result (IsGapFor (map row_of lines.now) radio) }
{
    lines.binary_search_by_key(&radio, |line| line.radio)
}

// "any memo line takes the new place"
pub fn placed(lines: &mut [Line; Desk::LINE_SLOTS], n: u16, radio: u16, place: Place)
    requires { GoodMemo (memo_in n lines.old) }
    ensures { memo_in n lines.new ≡ memo_of (alter (placed (Some (place_of place))) radio (lines_of (memo_in n lines.old))) }
{
    if let Ok(at) = lookup(&lines[..n as usize], radio) {
        lines[at] = Line::new(radio, lines[at].missed, Some(place));
    }
}

// "add 1 to the missed count (made as 1 if absent)", and the line takes this place, or "none". The answer is how many lines there are then.
pub fn raised(lines: &mut [Line; Desk::LINE_SLOTS], n: u16, radio: u16, place: Option<Place>) -> u16
    requires { RoomyMemo (memo_in n lines.old) × MissFits radio (memo_in n lines.old) }
    ensures { memo_in result lines.new
        ≡ memo_of (alter (raised (option_map place_of place)) radio (lines_of (memo_in n lines.old))) }
{
    match lookup(&lines[..n as usize], radio) {
        Ok(at) => {
            lines[at] = Line::new(radio, lines[at].missed + 1, place);
            n
        }
        Err(at) => {
            lines.copy_within(at..n as usize, at + 1);
            lines[at] = Line::new(radio, 1, place);
            n + 1
        }
    }
}
