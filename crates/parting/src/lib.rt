// What is parted where the stations of a small set are taken away: the lowest remaining station from the lowest not joined to it.
#![tactic(auto)]

ghost use Rattle.std.specs.Prelude.{◌≡◌, ◌≤◌, ◌<◌, length, IfSome};
ghost use Rattle.laws.specs.Fold.{lowest};
ghost use Rattle.network.specs.Stations.{number_or};
ghost use Rattle.pieces.specs.Away.{is_gone, Unmarked, Gone};
ghost use Rattle.parting.specs.Standing.{Standing.weak, lowest_remaining, without};
ghost use Rattle.parting.specs.Looking.{is_apart, marked, Below};
ghost use Rattle.parting.specs.Answers.{spot_stations, found_standing};

use kinds::Station;
use network::{SoundNetwork, lowest_station};
use pieces::find_pieces;

// The stations of a weak spot, at most two, the lower first.
#[derive(Clone, Copy, PartialEq, Eq)]
pub enum Spot {
    Empty,
    One(Station),
    Two(Station, Station),
}

// A weak spot: without its stations, station one is not joined to station two.
#[derive(Clone, Copy, PartialEq, Eq)]
pub struct WeakSpot {
    pub spot: Spot,
    pub one: Station,
    pub two: Station,
}

// The lowest station that is not marked, if there is one.
#[tactic(auto, unfolding(crate::specs::Standing::lowest_remaining))]
fn lowest_remaining(n: usize, gone: &[bool]) -> Option<Station>
    requires { (n ≤ 1024) × (length gone.now ≡ n) }
    ensures lowest { number_or n result ≡ lowest_remaining n (is_gone gone.now) }
    ensures station { IfSome result (λ v. v.0 < n) }
{
    lowest_station(Station(0), n, |v| !gone[v.0 as usize])
}

// Whether a station remains and is of another piece than the first.
fn is_apart(one: Station, two: Station, gone: &[bool], pieces: &[u16]) -> bool
    requires { (one.0 < length pieces.now) × (two.0 < length pieces.now) × (length gone.now ≡ length pieces.now) }
    ensures apart { result ≡ is_apart gone.now pieces.now one.0 two.0 }
{
    !gone[two.0 as usize] && pieces[one.0 as usize] != pieces[two.0 as usize]
}

// The lowest station that remains and is of another piece than the first, if there is one.
fn lowest_apart(n: usize, one: Station, gone: &[bool], pieces: &[u16]) -> Option<Station>
    requires { (n ≤ 1024) × (one.0 < n) × (length gone.now ≡ n) × (length pieces.now ≡ n) }
    ensures lowest { number_or n result ≡ lowest (is_apart gone.now pieces.now one.0) n n }
    ensures station { IfSome result (λ v. v.0 < n) }
{
    lowest_station(Station(0), n, |v| is_apart(one, v, gone, pieces))
}

// What is found where the stations of a spot part one station from another.
fn found_at(spot: Spot, one: Station, two: Station) -> WeakSpot
    ensures found { found_standing (Some result) ≡ weak (spot_stations spot) one.0 two.0 }
{
    WeakSpot { spot, one, two }
}

// Looks whether what remains without the stations of a spot is parted: the lowest remaining station from the lowest that is not joined to it.
pub fn look(
    network: &SoundNetwork,
    spot: Spot,
    gone: &[bool],
    pieces: &mut [u16],
) -> Option<WeakSpot>
    requires { (length gone.now ≡ network.now.n) × (length pieces.old ≡ network.now.n) × Gone (spot_stations spot) gone.now }
    ensures found { found_standing result ≡ without network.now.n network.now.lines.now (spot_stations spot) }
{
    let one = lowest_remaining(network.n, gone)?;
    find_pieces(network, gone, pieces);
    let two = lowest_apart(network.n, one, gone, pieces)?;
    Some(found_at(spot, one, two))
}

// Marks each station of a spot as taken away, or as one that remains.
fn mark(spot: Spot, away: bool, gone: &mut [bool])
    requires { Below (length gone.old) (spot_stations spot) }
    ensures marked { gone.new ≡ marked (spot_stations spot) away gone.old }
{
    match spot {
        Spot::Empty => {}
        Spot::One(one) => gone[one.0 as usize] = away,
        Spot::Two(one, two) => {
            gone[one.0 as usize] = away;
            gone[two.0 as usize] = away;
        }
    }
}

// The stations of a spot are taken away, and put back: what that parts, if anything.
#[tactic(auto, using(crate::proofs::Looking::marked_gone))]
pub fn try_spot(
    network: &SoundNetwork,
    spot: Spot,
    gone: &mut [bool],
    pieces: &mut [u16],
) -> Option<WeakSpot>
    requires { (length gone.old ≡ network.now.n) × Unmarked gone.old × (length pieces.old ≡ network.now.n) × Below network.now.n (spot_stations spot) }
    ensures found { found_standing result ≡ without network.now.n network.now.lines.now (spot_stations spot) }
    ensures gone { Unmarked gone.new }
{
    mark(spot, true, gone);
    let found = look(network, spot, gone, pieces);
    mark(spot, false, gone);
    found
}
