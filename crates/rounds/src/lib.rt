// One round of the check: B, then stations in the round's order, C before D, then E by place.
#![tactic(auto)]

ghost use Rattle.std.specs.Prelude.{◌≡◌, ℕ, ◌/◌, ◌≤◌, ◌<◌, ◌&&◌, not, length, get_or, ltb};
ghost use Rattle.network.specs.Orders.{EachOnce};
ghost use Rattle.entries.specs.Answers.{fault_said};
ghost use Rattle.entries.specs.Placed.{Placed};
ghost use Rattle.plans.specs.Checking.{stations_verdict, lines_verdict, round_verdict};
ghost use Rattle.plans.specs.Verdicts.{Kind.C, Kind.D, fault_if, ◌or_else◌};
ghost use Rattle.seen.specs.Sightings.{tables};
ghost use Rattle.seen.specs.Tables.{Blank};
ghost use Rattle.rounds.specs.Tables.{Room, all_seen_verdict, trees_verdict, all_trees_verdict};

use entries::{Fault, FaultKind, check_order};
use kinds::{Place, Position, Round, Station};
use network::{SoundNetwork, line_at, line_places};
use seen::{Sighting, empty_tables, in_play, plant_all, see_lines, tree_of};

// C, then D, of the station at a position, by what is seen there.
fn check_station(
    round: Round,
    position: Position,
    station: Station,
    sighting: Sighting,
) -> Result<(), Fault>
    ensures verdict { fault_said result ≡ fault_if (ltb sighting.earliest.0 position.0 && not sighting.parent) round.0 C station.0 or_else fault_if sighting.other round.0 D station.0 }
{
    if sighting.earliest < position && !sighting.parent {
        return Err(Fault {
            round,
            kind: FaultKind::ParentLacking(station),
        });
    }
    if sighting.other {
        return Err(Fault {
            round,
            kind: FaultKind::OtherParent(station),
        });
    }
    Ok(())
}

// Stations in the round's order.
#[tactic(auto, using(laws::proofs::Fold::first_start, laws::proofs::Fold::first_next, laws::proofs::Fold::first_here, laws::proofs::Fold::first_none, crate::proofs::Sightings::seen_here), unfolding(crate::specs::Tables::all_seen_verdict))]
fn check_stations(round: Round, order: &[u16], sightings: &[Sighting]) -> Result<(), Fault>
    requires { (length order.now ≤ 1024) × (length sightings.now ≡ length order.now) }
    ensures verdict { fault_said result ≡ all_seen_verdict (length order.now) round.0 order.now (tables sightings.now) }
{
    for (j, sighting) in sightings.iter().enumerate() {
        check_station(round, Position(j as u16), Station(order[j]), *sighting)?;
    }
    Ok(())
}

// E of the line at a place.
#[tactic(auto, unfolding(crate::specs::Tables::trees_verdict))]
fn check_line(
    round: Round,
    place: Place,
    network: &SoundNetwork,
    ranks: &[u8],
    positions: &[u16],
    trees: &[u16],
) -> Result<(), Fault>
    requires { (place.0 < length network.now.lines.now / 2) × (length positions.now ≡ network.now.n) × ((v : ℕ) → v < length positions.now → get_or positions.now v 0 < length trees.now) }
    ensures verdict { fault_said result ≡ trees_verdict network.now.lines.now ranks.now round.0 positions.now trees.now place.0 }
{
    if in_play(round, place, ranks) {
        let line = line_at(network.lines, place);
        let one = tree_of(line.one, positions, trees);
        let two = tree_of(line.two, positions, trees);
        if one != two {
            return Err(Fault {
                round,
                kind: FaultKind::TreesApart(place),
            });
        }
    }
    Ok(())
}

// E by place.
#[tactic(auto, using(laws::proofs::Fold::first_start, laws::proofs::Fold::first_next, laws::proofs::Fold::first_here, laws::proofs::Fold::first_none), unfolding(crate::specs::Tables::all_trees_verdict))]
fn check_lines(
    round: Round,
    network: &SoundNetwork,
    ranks: &[u8],
    positions: &[u16],
    trees: &[u16],
) -> Result<(), Fault>
    requires { (length positions.now ≡ network.now.n) × ((v : ℕ) → v < length positions.now → get_or positions.now v 0 < length trees.now) }
    ensures verdict { fault_said result ≡ all_trees_verdict network.now.lines.now ranks.now round.0 positions.now trees.now }
{
    for place in line_places(network.lines) {
        check_line(round, place, network, ranks, positions, trees)?;
    }
    Ok(())
}

// C and D along the order, then E, of a round whose stations are placed.
fn check_placed(
    round: Round,
    network: &SoundNetwork,
    ranks: &[u8],
    order: &[u16],
    positions: &[u16],
    sightings: &mut [Sighting],
    trees: &mut [u16],
) -> Result<(), Fault>
    requires { (length order.now ≡ network.now.n) × EachOnce (length order.now) order.now × Placed (length order.now) order.now (length order.now) positions.now × Blank (length order.now) (tables sightings.old) × (length trees.old ≡ length order.now) }
    ensures verdict { fault_said result ≡ stations_verdict (length order.now) network.now.lines.now ranks.now round.0 order.now or_else lines_verdict (length order.now) network.now.lines.now ranks.now round.0 order.now }
{
    see_lines(round, network, ranks, positions, sightings);
    check_stations(round, order, sightings)?;
    plant_all(sightings, trees);
    check_lines(round, network, ranks, positions, trees)
}

// A round: B, then C and D along its order, then E by place.
pub fn check_round(
    round: Round,
    network: &SoundNetwork,
    ranks: &[u8],
    order: &[u16],
    positions: &mut [u16],
    sightings: &mut [Sighting],
    trees: &mut [u16],
) -> Result<(), Fault>
    requires { (length order.now ≡ network.now.n) × Room network.now.n positions.old sightings.old trees.old }
    ensures verdict { fault_said result ≡ round_verdict network.now.n network.now.lines.now ranks.now round.0 order.now }
{
    empty_tables(network.n, positions, sightings);
    check_order(network.n, round, order, positions)?;
    check_placed(round, network, ranks, order, positions, sightings, trees)
}
