// The neighbours of each station, in a table: those of station u stand from begins[u] to before begins[u + 1].
#![tactic(auto)]

mod table; // table.rt: the table, as those who read it are lent it

ghost use Rattle.std.specs.Prelude.{◌≡◌, ℕ, ◌+◌, ◌*◌, ◌/◌, ◌<◌, ◌≤◌, length, get_or, set};
ghost use Rattle.neighbours.specs.Near.{Near, Bound};
ghost use Rattle.neighbours.specs.Ranks.{Counted, Summed, Filled};

use kinds::{Place, Station};
use network::{SoundNetwork, line_at, line_places};
pub use table::{Entry, Neighbours};

// One line end more of a station: where the next station begins moves up by one entry. Where it began before.
fn next_entry(station: Station, begins: &mut [u16]) -> Entry
    requires { (station.0 + 1 < length begins.old) × (get_or begins.old (station.0 + 1) 0 ≤ 16384) }
    ensures was { result.0 ≡ get_or begins.old (station.0 + 1) 0 }
    ensures entry { begins.new ≡ set begins.old (station.0 + 1) (get_or begins.old (station.0 + 1) 0 + 1) }
{
    let at = station.0 as usize + 1;
    let was = begins[at];
    begins[at] = was + 1;
    Entry(was)
}

// Counts the line ends of each station.
fn count_ends(network: &SoundNetwork, begins: &mut [u16])
    requires { Counted network.now.n network.now.lines.now 0 begins.old }
    ensures counted { Counted network.now.n network.now.lines.now (length network.now.lines.now) begins.new }
{
    for end in network.lines {
        next_entry(Station(*end), begins);
    }
}

// Sums the counts: each becomes the number of line ends of lower stations.
fn sum_counts(network: &SoundNetwork, begins: &mut [u16])
    requires { Counted network.now.n network.now.lines.now (length network.now.lines.now) begins.old }
    ensures summed { Summed network.now.n network.now.lines.now network.now.n begins.new }
{
    let mut sum = 0;
    for v in 0..network.n {
        let count = begins[v + 1];
        begins[v + 1] = sum;
        sum += count;
    }
}

// Lays a neighbour of a station at the station's next entry.
fn put_end(station: Station, neighbour: Station, begins: &mut [u16], near: &mut [u16])
    requires { (station.0 + 1 < length begins.old) × (get_or begins.old (station.0 + 1) 0 < length near.old) × (length near.old ≤ 16384) }
    ensures begins { begins.new ≡ set begins.old (station.0 + 1) (get_or begins.old (station.0 + 1) 0 + 1) }
    ensures near { near.new ≡ set near.old (get_or begins.old (station.0 + 1) 0) neighbour.0 }
{
    let entry = next_entry(station, begins);
    near[entry.0 as usize] = neighbour.0;
}

// Lays both ends of the line at a place.
fn put_line(place: Place, network: &SoundNetwork, begins: &mut [u16], near: &mut [u16])
    requires { (place.0 < length network.now.lines.now / 2) × Filled network.now.n network.now.lines.now (2 * place.0) begins.old near.old }
    ensures filled { Filled network.now.n network.now.lines.now (2 * place.0 + 2) begins.new near.new }
{
    let line = line_at(network.lines, place);
    put_end(line.one, line.two, begins, near);
    put_end(line.two, line.one, begins, near);
}

// Lays both ends of every line.
fn put_lines(network: &SoundNetwork, begins: &mut [u16], near: &mut [u16])
    requires { Filled network.now.n network.now.lines.now 0 begins.old near.old }
    ensures filled { Filled network.now.n network.now.lines.now (length network.now.lines.now) begins.new near.new }
{
    for place in line_places(network.lines) {
        put_line(place, network, begins, near);
    }
}

// The neighbours of each station, in time that grows with the stations and the lines.
pub fn lay_neighbours(network: &SoundNetwork, begins: &mut [u16], near: &mut [u16])
    requires { (length begins.old ≡ network.now.n + 1) × (length near.old ≡ length network.now.lines.now) }
    ensures near { Near network.now.n network.now.lines.now begins.new near.new }
    ensures bound { Bound network.now.n begins.new near.new }
{
    begins.fill(0);
    count_ends(network, begins);
    sum_counts(network, begins);
    put_lines(network, begins, near);
}
