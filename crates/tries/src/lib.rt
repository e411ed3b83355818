// The weak spot of a list: each set of fewer stations than the level, fewest first, by one pass for all that one station more makes.
#![tactic(auto)]

ghost use Rattle.std.specs.Prelude.{◌≡◌, [], ◌∷◌, false, ◌+◌, ◌≤◌, ◌<◌, length, IfSome};
ghost use Rattle.pieces.specs.Away.{Unmarked};
ghost use Rattle.neighbours.specs.Near.{Near};
ghost use Rattle.parting.specs.Standing.{is_weak, without};
ghost use Rattle.parting.specs.Answers.{found_standing};
ghost use Rattle.network.specs.Stations.{number_or};
ghost use Rattle.tries.specs.Tries.{without_ones, without_seconds, without_twos, weak_spot};
ghost use Rattle.tries.specs.Cutting.{first_cut, pair, SaysWeak, without_stations};

use cuts::find_cuts;
use kinds::{Level, Station};
use neighbours::{Neighbours, lay_neighbours};
use network::{SoundNetwork, lowest_station};
use parting::{Spot, WeakSpot, look, try_spot};

// The first station from a given one on that is marked as a cut station, if there is one.
#[tactic(auto, unfolding(crate::specs::Cutting::first_cut))]
fn first_cut(from: Station, cut: &[bool]) -> Option<Station>
    requires { length cut.now ≤ 1024 }
    ensures first { number_or (length cut.now) result ≡ first_cut cut.now from.0 }
    ensures station { IfSome result (λ v. v.0 < length cut.now) }
{
    lowest_station(from, cut.len(), |v| cut[v.0 as usize])
}

// Each one station, the smallest number first, of a network that is whole: one pass with none taken away finds those that part two others.
fn try_ones(
    network: &SoundNetwork,
    neighbours: &Neighbours,
    gone: &mut [bool],
    pieces: &mut [u16],
    cut: &mut [bool],
) -> Option<WeakSpot>
    requires { (length gone.old ≡ network.now.n) × Unmarked gone.old × (length pieces.old ≡ network.now.n) × (is_weak (without network.now.n network.now.lines.now []) ≡ false) × Near network.now.n network.now.lines.now neighbours.now.begins.now neighbours.now.near.now × (neighbours.now.n ≡ network.now.n) × (length cut.old ≡ network.now.n) }
    ensures found { found_standing result ≡ without_ones network.now.n network.now.lines.now }
    ensures gone { Unmarked gone.new }
{
    find_cuts(neighbours, gone, pieces, cut);
    let one = first_cut(Station(0), cut)?;
    try_spot(network, Spot::One(one), gone, pieces)
}

// Says of each higher station whether it and a first one, which alone parts no two, part two others: one pass with the first taken away.
fn find_seconds(
    network: &SoundNetwork,
    one: Station,
    neighbours: &Neighbours,
    gone: &mut [bool],
    depths: &mut [u16],
    cut: &mut [bool],
)
    requires { (length gone.old ≡ network.now.n) × Unmarked gone.old × (length depths.old ≡ network.now.n) × (one.0 < network.now.n) × Near network.now.n network.now.lines.now neighbours.now.begins.now neighbours.now.near.now × (neighbours.now.n ≡ network.now.n) × (length cut.old ≡ network.now.n) }
    ensures seconds { is_weak (without network.now.n network.now.lines.now (one.0 ∷ [])) ≡ false → SaysWeak network.now.n network.now.lines.now (pair one.0) (one.0 + 1) cut.new }
    ensures gone { Unmarked gone.new }
{
    gone[one.0 as usize] = true;
    find_cuts(neighbours, gone, depths, cut);
    gone[one.0 as usize] = false;
}

// One station, which alone parts no two, with each higher one, the smallest second number first.
fn try_seconds(
    network: &SoundNetwork,
    one: Station,
    neighbours: &Neighbours,
    gone: &mut [bool],
    pieces: &mut [u16],
    cut: &mut [bool],
) -> Option<WeakSpot>
    requires { (length gone.old ≡ network.now.n) × Unmarked gone.old × (length pieces.old ≡ network.now.n) × (one.0 < network.now.n) × (is_weak (without network.now.n network.now.lines.now (one.0 ∷ [])) ≡ false) × Near network.now.n network.now.lines.now neighbours.now.begins.now neighbours.now.near.now × (neighbours.now.n ≡ network.now.n) × (length cut.old ≡ network.now.n) }
    ensures found { found_standing result ≡ without_seconds network.now.n network.now.lines.now one.0 }
    ensures gone { Unmarked gone.new }
{
    find_seconds(network, one, neighbours, gone, pieces, cut);
    let two = first_cut(Station(one.0 + 1), cut)?;
    try_spot(network, Spot::Two(one, two), gone, pieces)
}

// Each two stations, the smallest first number first, where no one station parts two others.
#[tactic(auto, using(laws::proofs::Fold::first_start, laws::proofs::Fold::first_next, laws::proofs::Fold::first_here, laws::proofs::Fold::first_none, crate::proofs::Cutting::ones_sturdy), unfolding(crate::specs::Tries::without_twos))]
fn try_twos(
    network: &SoundNetwork,
    neighbours: &Neighbours,
    gone: &mut [bool],
    pieces: &mut [u16],
    cut: &mut [bool],
) -> Option<WeakSpot>
    requires { (length gone.old ≡ network.now.n) × Unmarked gone.old × (length pieces.old ≡ network.now.n) × (is_weak (without_ones network.now.n network.now.lines.now) ≡ false) × Near network.now.n network.now.lines.now neighbours.now.begins.now neighbours.now.near.now × (neighbours.now.n ≡ network.now.n) × (length cut.old ≡ network.now.n) }
    ensures found { found_standing result ≡ without_twos network.now.n network.now.lines.now }
{
    for v in 0..network.n {
        let found = try_seconds(network, Station(v as u16), neighbours, gone, pieces, cut);
        if found.is_some() {
            return found;
        }
    }
    None
}

// Each one station, and at level 3 each two, of a network that is whole, by the neighbours of each station.
#[tactic(auto, using(crate::proofs::Standing::else_weak, crate::proofs::Standing::else_next), unfolding(crate::specs::Cutting::without_stations))]
fn try_stations(
    network: &SoundNetwork,
    level: Level,
    begins: &mut [u16],
    near: &mut [u16],
    gone: &mut [bool],
    pieces: &mut [u16],
    cut: &mut [bool],
) -> Option<WeakSpot>
    requires { (length gone.old ≡ network.now.n) × Unmarked gone.old × (length pieces.old ≡ network.now.n) × (is_weak (without network.now.n network.now.lines.now []) ≡ false) × (length begins.old ≡ network.now.n + 1) × (length near.old ≡ length network.now.lines.now) × (length cut.old ≡ network.now.n) }
    ensures found { found_standing result ≡ without_stations network.now.n level.0 network.now.lines.now }
{
    lay_neighbours(network, begins, near);
    let neighbours = Neighbours {
        n: network.n,
        begins,
        near,
    };
    let ones = try_ones(network, &neighbours, gone, pieces, cut);
    if ones.is_some() || level.0 < 3 {
        return ones;
    }
    try_twos(network, &neighbours, gone, pieces, cut)
}

// Fewer stations than the level, fewest first, of a list: with marks of which none is set, and tables to work in.
#[tactic(auto, using(crate::proofs::Standing::else_weak, crate::proofs::Standing::else_next, parting::proofs::Looking::unmarked_gone), unfolding(crate::specs::Tries::weak_spot, crate::specs::Cutting::without_stations))]
pub fn search(
    network: &SoundNetwork,
    level: Level,
    begins: &mut [u16],
    near: &mut [u16],
    gone: &mut [bool],
    pieces: &mut [u16],
    cut: &mut [bool],
) -> Option<WeakSpot>
    requires { (length gone.old ≡ network.now.n) × Unmarked gone.old × (length pieces.old ≡ network.now.n) × (length begins.old ≡ network.now.n + 1) × (length near.old ≡ length network.now.lines.now) × (length cut.old ≡ network.now.n) }
    ensures found { found_standing result ≡ weak_spot network.now.n level.0 network.now.lines.now }
{
    let found = look(network, Spot::Empty, gone, pieces);
    if found.is_some() || level.0 < 2 {
        return found;
    }
    try_stations(network, level, begins, near, gone, pieces, cut)
}
