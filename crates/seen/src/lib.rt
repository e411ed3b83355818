// What is seen of a round's lines, in a table by position: each station's earliest earlier neighbour in play; and the trees.
#![tactic(auto)]

ghost use Rattle.std.specs.Prelude.{◌≡◌, ℕ, ◌/◌, ◌≤◌, ◌<◌, length, get_or};
ghost use Rattle.plans.specs.Checking.{in_play, of_rank};
ghost use Rattle.seen.specs.Tables.{Blank, Fitting, see_from, see_between, see_line, see_lines, plant_all};
ghost use Rattle.seen.specs.Sightings.{tables};

use kinds::{Place, Position, Round, Station};
use network::{SoundNetwork, line_at, line_places, rank_at};

// What the lines seen so far tell of the station at a position.
#[derive(Clone, Copy, PartialEq, Eq)]
pub struct Sighting {
    // That of its earliest earlier neighbour in play, or its own where there is none.
    pub earliest: Position,
    // Whether the line to that neighbour has the round's rank.
    pub parent: bool,
    // Whether a line of that rank leads to another earlier station.
    pub other: bool,
}

// Whether a line is in play in a round: its rank is 0 or at least the round.
#[tactic(auto, unfolding(plans::specs::Checking::in_play))]
pub fn in_play(round: Round, place: Place, ranks: &[u8]) -> bool
    ensures answer { result ≡ in_play ranks.now round.0 place.0 }
{
    let rank = rank_at(ranks, place);
    rank == Round(0) || round <= rank
}

// Whether a line has the round's rank.
#[tactic(auto, unfolding(plans::specs::Checking::of_rank))]
fn has_rank(round: Round, place: Place, ranks: &[u8]) -> bool
    ensures answer { result ≡ of_rank ranks.now round.0 place.0 }
{
    rank_at(ranks, place) == round
}

// Empties the tables: no station is placed, and none has an earlier neighbour.
pub fn empty_tables(n: usize, positions: &mut [u16], sightings: &mut [Sighting])
    requires { (n ≤ 1024) × (length positions.old ≡ n) × (length sightings.old ≡ n) }
    ensures unplaced { (v : ℕ) → v < n → get_or positions.new v 0 ≡ n }
    ensures blank { Blank n (tables sightings.new) }
{
    positions.fill(n as u16);
    for (j, sighting) in sightings.iter_mut().enumerate() {
        *sighting = Sighting {
            earliest: Position(j as u16),
            parent: false,
            other: false,
        };
    }
}

// A line in play between two positions, seen from the later one.
#[tactic(auto, unfolding(crate::specs::Tables::see_from))]
fn see_from(later: Position, earlier: Position, taken: bool, sightings: &mut [Sighting])
    requires { later.0 < length sightings.old }
    ensures seen { tables sightings.new ≡ see_from later.0 earlier.0 taken (tables sightings.old) }
{
    let before = sightings[later.0 as usize];
    sightings[later.0 as usize] = if earlier < before.earliest {
        Sighting {
            earliest: earlier,
            parent: taken,
            other: before.other | before.parent,
        }
    } else {
        Sighting {
            other: before.other | taken,
            ..before
        }
    };
}

// The same, whichever position is the later.
#[tactic(auto, unfolding(crate::specs::Tables::see_between))]
fn see_between(one: Position, two: Position, taken: bool, sightings: &mut [Sighting])
    requires { (one.0 < length sightings.old) × (two.0 < length sightings.old) }
    ensures seen { tables sightings.new ≡ see_between one.0 two.0 taken (tables sightings.old) }
{
    if one < two {
        see_from(two, one, taken, sightings);
    } else {
        see_from(one, two, taken, sightings);
    }
}

// The line at a place, if it is in play.
#[tactic(auto, unfolding(crate::specs::Tables::see_line))]
fn see_line(
    round: Round,
    place: Place,
    network: &SoundNetwork,
    ranks: &[u8],
    positions: &[u16],
    sightings: &mut [Sighting],
)
    requires { (place.0 < length network.now.lines.now / 2) × (length positions.now ≡ network.now.n) × Fitting positions.now (tables sightings.old) }
    ensures seen { tables sightings.new ≡ see_line network.now.lines.now ranks.now round.0 positions.now place.0 (tables sightings.old) }
{
    if in_play(round, place, ranks) {
        let line = line_at(network.lines, place);
        let one = Position(positions[line.one.0 as usize]);
        let two = Position(positions[line.two.0 as usize]);
        let taken = has_rank(round, place, ranks);
        see_between(one, two, taken, sightings);
    }
}

// All lines, in list order.
#[tactic(auto, using(laws::proofs::Fold::up_to_more), unfolding(crate::specs::Tables::see_lines, laws::specs::Fold::up_to))]
pub fn see_lines(
    round: Round,
    network: &SoundNetwork,
    ranks: &[u8],
    positions: &[u16],
    sightings: &mut [Sighting],
)
    requires { (length positions.now ≡ network.now.n) × Fitting positions.now (tables sightings.old) }
    ensures seen { tables sightings.new ≡ see_lines network.now.lines.now ranks.now round.0 positions.now (tables sightings.old) }
{
    for place in line_places(network.lines) {
        see_line(round, place, network, ranks, positions, sightings);
    }
}

// The tree of each station, in the round's order, named by its root's position.
#[tactic(auto, using(laws::proofs::Fold::up_to_more), unfolding(crate::specs::Tables::plant_all, crate::specs::Tables::plant, laws::specs::Fold::up_to))]
pub fn plant_all(sightings: &[Sighting], trees: &mut [u16])
    requires { (length trees.old ≤ 1024) × (length sightings.now ≡ length trees.old) }
    ensures planted { trees.new ≡ plant_all (length trees.old) (tables sightings.now).earliest trees.old }
{
    for (j, sighting) in sightings.iter().enumerate() {
        let parent = sighting.earliest.0 as usize;
        trees[j] = if parent < j { trees[parent] } else { j as u16 };
    }
}

// The tree of a station.
pub fn tree_of(station: Station, positions: &[u16], trees: &[u16]) -> Position
    requires { (station.0 < length positions.now) × (get_or positions.now station.0 0 < length trees.now) }
    ensures tree { result.0 ≡ get_or trees.now (get_or positions.now station.0 0) 0 }
{
    let at = positions[station.0 as usize] as usize;
    Position(trees[at])
}
