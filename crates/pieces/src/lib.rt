// The pieces of a network when stations are taken away: which of the others are joined to each other.
#![tactic(auto)]

ghost use Rattle.std.specs.Prelude.{◌≡◌, List, ℕ, ◌/◌, ◌<◌, ◌≤◌, length, get_or, set};
ghost use Rattle.laws.specs.Fold.{up_to};
ghost use Rattle.pieces.specs.Away.{is_gone};
ghost use Rattle.pieces.specs.Pieces.{alone, merge, join_line, pieces_of};
ghost use Rattle.pieces.specs.Tables.{Leads, Leading, Laid};

use kinds::{Place, Station};
use network::{SoundNetwork, line_at, line_places};

// A station's entry skips one station on the way down; where it leads to then. This keeps the ways short.
fn shorten(station: Station, pieces: &mut [u16]) -> Station
    requires { (station.0 < length pieces.old) × Leading pieces.old }
    ensures next { result.0 ≡ get_or pieces.old (get_or pieces.old station.0 0) 0 }
    ensures table { pieces.new ≡ set pieces.old station.0 (get_or pieces.old (get_or pieces.old station.0 0) 0) }
{
    let v = station.0 as usize;
    let over = pieces[pieces[v] as usize];
    pieces[v] = over;
    Station(over)
}

// The station that names the piece of a station: the last on the way down.
fn root_of(station: Station, pieces: &mut [u16]) -> Station
    requires { (station.0 < length pieces.old) × Leading pieces.old }
    ensures root { (names : List ℕ) → Leads names pieces.old → Leads names pieces.new × (result.0 ≡ get_or names station.0 0) }
{
    let mut v = station;
    while pieces[v.0 as usize] != v.0 {
        v = shorten(v, pieces);
    }
    v
}

// Two pieces, by the stations that name them, become one: the higher station's entry is now the lower.
fn join_roots(one: Station, two: Station, pieces: &mut [u16])
    requires { (one.0 < length pieces.old) × (two.0 < length pieces.old) }
    ensures joined { (names : List ℕ) → Leads names pieces.old → get_or names one.0 0 ≡ one.0 → get_or names two.0 0 ≡ two.0 → Leads (merge one.0 two.0 names) pieces.new }
{
    if one < two {
        pieces[two.0 as usize] = one.0;
    } else if two < one {
        pieces[one.0 as usize] = two.0;
    }
}

// The pieces of two stations become one. Most lines join what is one piece already, which equal entries show at once.
fn join_ends(one: Station, two: Station, pieces: &mut [u16])
    requires { (one.0 < length pieces.old) × (two.0 < length pieces.old) × Leading pieces.old }
    ensures joined { (names : List ℕ) → Leads names pieces.old → Leads (merge (get_or names one.0 0) (get_or names two.0 0) names) pieces.new }
{
    if pieces[one.0 as usize] != pieces[two.0 as usize] {
        let first = root_of(one, pieces);
        let second = root_of(two, pieces);
        join_roots(first, second, pieces);
    }
}

// The line at a place makes the pieces of its ends one, if both ends remain.
fn join_line(place: Place, lines: &[u16], gone: &[bool], pieces: &mut [u16])
    requires { (place.0 < length lines.now / 2) × Laid lines.now gone.now pieces.old × Leading pieces.old }
    ensures joined { (names : List ℕ) → Leads names pieces.old → Leads (join_line lines.now (is_gone gone.now) place.0 names) pieces.new }
{
    let line = line_at(lines, place);
    if !gone[line.one.0 as usize] && !gone[line.two.0 as usize] {
        join_ends(line.one, line.two, pieces);
    }
}

// Every line, in list order.
#[tactic(auto, unfolding(laws::specs::Fold::up_to), using(laws::proofs::Fold::up_to_more))]
fn join_lines(lines: &[u16], gone: &[bool], pieces: &mut [u16])
    requires { Laid lines.now gone.now pieces.old × Leading pieces.old }
    ensures joined { (names : List ℕ) → Leads names pieces.old → Leads (up_to (join_line lines.now (is_gone gone.now)) names (length lines.now / 2)) pieces.new }
{
    for place in line_places(lines) {
        join_line(place, lines, gone, pieces);
    }
}

// Each station is a piece of its own.
#[tactic(auto, using(laws::proofs::Lists::store_next, crate::proofs::Tables::alone_length, crate::proofs::Tables::alone_more), unfolding(crate::specs::Pieces::alone, laws::specs::Fold::up_to))]
fn set_alone(pieces: &mut [u16])
    requires { length pieces.old ≤ 1024 }
    ensures alone { pieces.new ≡ alone (length pieces.old) }
{
    for (v, piece) in pieces.iter_mut().enumerate() {
        *piece = v as u16;
    }
}

// Each entry becomes the name of its piece: in rising order, an entry leads to one that is right already.
fn set_names(pieces: &mut [u16])
    requires { (length pieces.old ≤ 1024) × Leading pieces.old }
    ensures names { (names : List ℕ) → Leads names pieces.old → pieces.new ≡ names }
{
    for v in 0..pieces.len() {
        shorten(Station(v as u16), pieces);
    }
}

// The pieces of what remains: at each station, the lowest station of its piece.
pub fn find_pieces(network: &SoundNetwork, gone: &[bool], pieces: &mut [u16])
    requires { (length gone.now ≡ network.now.n) × (length pieces.old ≡ network.now.n) }
    ensures pieces { pieces.new ≡ pieces_of network.now.n network.now.lines.now (is_gone gone.now) }
{
    set_alone(pieces);
    join_lines(network.lines, gone, pieces);
    set_names(pieces);
}
