// Cut stations: those that, taken away too, leave two of the others not joined. One depth-first pass finds them all.
#![tactic(auto)]

ghost use Rattle.std.specs.Prelude.{◌≡◌, Bool, true, false, ◌||◌, ◌&&◌, List, ℕ, ◌+◌, ◌<◌, ◌≤◌, min, length, get_or, set, ltb, leb};
ghost use Rattle.pieces.specs.Away.{is_gone};
ghost use Rattle.pieces.specs.Joined.{Remains, Whole};
ghost use Rattle.neighbours.specs.Near.{Near};
ghost use Rattle.cuts.specs.Cuts.{SaysCuts};
ghost use Rattle.cuts.specs.Visits.{Holds, Passed};
ghost use Rattle.cuts.specs.Passes.{Unseen, first_depth};

use kinds::Station;
use neighbours::{Entry, Neighbours};

// How deep a station lies on the way that a pass took to it: 1 where it began. 0: the pass has not come to it; over 1,024: it is taken away.
#[derive(Clone, Copy, PartialEq, Eq, PartialOrd, Ord)]
struct Depth(u16);

// A station that remains, before the pass comes to it.
const UNSEEN: Depth = Depth(0);

// A station that is taken away: no other has its depth.
const TAKEN_AWAY: Depth = Depth(65535);

// The depth of the visit that a pass ends with: of the station where it began.
const OUTERMOST: usize = 1;

// A visit that is under way: of which station, which of its neighbours is looked at next, and what is known so far: the least depth that it
// or what lies below it is next to, whether another station is seen, and whether it is a cut station.
#[derive(Clone, Copy)]
struct Visit {
    station: Station,
    next: Entry,
    low: Depth,
    other: bool,
    cut: bool,
}

// Begins the visit of a station, which gets its depth. No neighbour is looked at yet.
fn begin_visit(station: Station, depth: Depth, neighbours: &Neighbours, depths: &mut [u16]) -> Visit
    requires { (station.0 < length depths.old) × (length depths.old ≡ neighbours.now.n) }
    ensures depths { depths.new ≡ set depths.old station.0 depth.0 }
    ensures visit { Holds result station.0 (get_or neighbours.now.begins.now station.0 0) depth.0 (ltb 1 depth.0) false }
{
    depths[station.0 as usize] = depth.0;
    Visit {
        station,
        next: neighbours.first(station),
        low: depth,
        other: 1 < depth.0,
        cut: false,
    }
}

// After a neighbour that was seen before.
fn with_seen(visit: Visit, seen: Depth) -> Visit
    requires { visit.next.0 < 65535 }
    ensures visit { Holds result visit.station.0 (visit.next.0 + 1) (min visit.low.0 seen.0) visit.other visit.cut }
{
    Visit {
        next: Entry(visit.next.0 + 1),
        low: visit.low.min(seen),
        ..visit
    }
}

// After a neighbour that was visited, from which nothing above `below` is next: it is cut off, if another station was seen before.
fn with_child(visit: Visit, depth: Depth, below: Depth) -> Visit
    requires { visit.next.0 < 65535 }
    ensures visit { Holds result visit.station.0 (visit.next.0 + 1) (min visit.low.0 below.0) true (visit.cut || (visit.other && leb depth.0 below.0)) }
{
    Visit {
        next: Entry(visit.next.0 + 1),
        low: visit.low.min(below),
        other: true,
        cut: visit.cut || (visit.other && depth <= below),
        ..visit
    }
}

// Passes the neighbours that are seen, up to the first that is not.
fn pass_seen(visit: Visit, neighbours: &Neighbours, depths: &[u16]) -> Visit
    requires { (length depths.now ≡ neighbours.now.n) × (visit.station.0 < length depths.now) × (get_or neighbours.now.begins.now visit.station.0 0 ≤ visit.next.0) }
    ensures passed { Passed neighbours.now.begins.now neighbours.now.near.now depths.now visit result }
{
    let mut passing = visit;
    while let Some(neighbour) = neighbours.at(passing.station, passing.next) {
        let seen = Depth(depths[neighbour.0 as usize]);
        if seen == UNSEEN {
            return passing;
        }
        passing = with_seen(passing, seen);
    }
    passing
}

// Visits a first station and all that it leads to: gives each its depth, and says of each whether it is a cut station. A visit that comes to
// a neighbour without a depth waits, in `waiting` at its own depth, until the visit of that neighbour has ended.
fn visit_from(first: Station, neighbours: &Neighbours, depths: &mut [u16], cut: &mut [bool])
    requires { (length depths.old ≡ neighbours.now.n) × (length cut.old ≡ length depths.old) × (first.0 < length depths.old) }
    ensures says { (away : ℕ → Bool) (lines : List ℕ) → Unseen (length depths.old) away depths.old → Remains (length depths.old) away first.0 → Near (length depths.old) lines neighbours.now.begins.now neighbours.now.near.now → Whole (length depths.old) lines away → SaysCuts (length depths.old) lines away cut.new }
{
    let mut visit = begin_visit(first, Depth(1), neighbours, depths);
    let mut waiting = [visit; 1024];
    let mut depth = 1;
    loop {
        visit = pass_seen(visit, neighbours, depths);
        if let Some(neighbour) = neighbours.at(visit.station, visit.next) {
            waiting[depth] = visit;
            depth += 1;
            visit = begin_visit(neighbour, Depth(depth as u16), neighbours, depths);
            continue;
        }
        cut[visit.station.0 as usize] = visit.cut;
        if depth == OUTERMOST {
            return;
        }
        depth -= 1;
        visit = with_child(waiting[depth], Depth(depth as u16), visit.low);
    }
}

// The depth of a station before a pass: none if it remains, and one that none else has if it is taken away.
fn first_depth(gone: bool) -> Depth
    ensures depth { result.0 ≡ first_depth gone }
{
    if gone { TAKEN_AWAY } else { UNSEEN }
}

// Before a pass.
fn set_unseen(gone: &[bool], depths: &mut [u16])
    requires { length gone.now ≡ length depths.old }
    ensures unseen { Unseen (length depths.old) (is_gone gone.now) depths.new }
{
    for (v, depth) in depths.iter_mut().enumerate() {
        *depth = first_depth(gone[v]).0;
    }
}

// Says of each station that remains whether taking it away too leaves two others not joined, if any two that remain are joined.
pub fn find_cuts(neighbours: &Neighbours, gone: &[bool], depths: &mut [u16], cut: &mut [bool])
    requires { (length depths.old ≡ neighbours.now.n) × (length cut.old ≡ length depths.old) × (length gone.now ≡ length depths.old) }
    ensures cuts { (lines : List ℕ) → Near (length depths.old) lines neighbours.now.begins.now neighbours.now.near.now → Whole (length depths.old) lines (is_gone gone.now) → SaysCuts (length depths.old) lines (is_gone gone.now) cut.new }
{
    set_unseen(gone, depths);
    if let Some(v) = gone.iter().position(|is_gone| !*is_gone) {
        visit_from(Station(v as u16), neighbours, depths, cut);
    }
}
