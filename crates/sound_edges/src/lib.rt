// The edges of a cell on cuts that rise: which stripe each bounds, and which stripes lie between two of them.
#![tactic(auto)]

ghost use Rattle.std.specs.Prelude.{true, ◌≡◌, ◌-◌, ltb};
ghost use Rattle.lists.specs.Sums.{count};
ghost use Rattle.rules.specs.Grid.{stripe};
ghost use Rattle.sound_clauses.specs.Grid.{cuts_test, low_test, high_test};
ghost use Rattle.sound_edges.specs.Edges.{passing, extent};

use desk::Desk;

// The stripe that a cut at x ends, where there is such a cut: as the cuts rise, it is the cut's own place.
fn ended_at(cuts: &[u16], x: u16) -> Option<usize>
    requires { cuts_test cuts.now ≡ true }
    ensures { result ≡ passing (ltb 0 (count x cuts.now)) (stripe cuts.now (x - 1)) }
{
    cuts.iter().position(|&cut| cut == x)
}

// The stripe whose least coordinate is x.
fn low_edge(cuts: &[u16], x: u16) -> Option<usize>
    requires { cuts_test cuts.now ≡ true }
    ensures { result ≡ passing (low_test cuts.now x) (stripe cuts.now x) }
{
    if x == 0 {
        return Some(0);
    }
    let before = ended_at(cuts, x)?;
    Some(before + 1)
}

// The stripe whose greatest coordinate is x.
fn high_edge(cuts: &[u16], x: u16) -> Option<usize>
    requires { cuts_test cuts.now ≡ true }
    ensures { result ≡ passing (high_test cuts.now x) (stripe cuts.now x) }
{
    if x == Desk::LAST_METRE {
        return Some(cuts.len());
    }
    ended_at(cuts, x + 1)
}

// The first and the last stripe between two edges, if the edges are those of whole stripes.
pub fn extent_of(cuts: &[u16], low: u16, high: u16) -> Option<(usize, usize)>
    requires { cuts_test cuts.now ≡ true }
    ensures { result ≡ extent cuts.now low high }
{
    let first = low_edge(cuts, low)?;
    let last = high_edge(cuts, high)?;
    if high < low {
        return None;
    }
    Some((first, last))
}
