// Which lines stood earlier: in a first list, or before them in their own.
#![tactic(auto)]

ghost use Rattle.std.specs.Prelude.{◌≡◌, ◌&&◌, ◌≢◌, ℕ, ◌*◌, ◌/◌, ◌<◌, ◌≤◌, ltb, length, replicate};
ghost use Rattle.laws.specs.Fold.{pick};
ghost use Rattle.bits.specs.Sets.{is_in, put_in};
ghost use Rattle.network.specs.Lines.{network, Proper};
ghost use Rattle.earlier.specs.Pairs.{pairs_of, pair_at, pair_number, pair_of, remembered, marked};
ghost use Rattle.earlier.specs.Earlier.{stood_earlier};

use kinds::{Place, Station};
use network::{Line, line_at, line_places};

// The most stations whose pairs have a bit each in the small set of 510 words.
const FEW: usize = 256;

// The number of a pair of stations, given the lower one and the higher one.
#[tactic(auto, unfolding(crate::specs::Pairs::pair_at))]
fn pair_at(low: Station, high: Station) -> usize
    requires { (low.0 < high.0) × (high.0 < 1024) }
    ensures number { result ≡ pair_at low.0 high.0 }
{
    let h = high.0 as usize;
    h * (h - 1) / 2 + low.0 as usize
}

// The number of the pair that a line joins, the same either way round.
#[tactic(auto, using(crate::proofs::Pairs::pair_lower, crate::proofs::Pairs::pair_higher))]
fn pair_number(line: Line) -> usize
    requires { (line.one.0 < 1024) × (line.two.0 < 1024) × (line.one.0 ≢ line.two.0) }
    ensures number { result ≡ pair_number line.one.0 line.two.0 }
{
    if line.one < line.two {
        return pair_at(line.one, line.two);
    }
    pair_at(line.two, line.one)
}

// The number of the pair that the line at a place joins.
fn pair_of(lines: &[u16], place: Place) -> usize
    requires { Proper (network 1024 lines.now) × (place.0 < length lines.now / 2) }
    ensures number { result ≡ pair_of lines.now place.0 }
{
    let line = line_at(lines, place);
    pair_number(line)
}

// The set of pairs remembers every line of a list.
#[tactic(auto, unfolding(laws::specs::Fold::up_to), using(laws::proofs::Fold::up_to_more))]
fn remember_lines(lines: &[u16], pairs: &mut [u64])
    requires { (length lines.now ≤ 16384) × Proper (network 1024 lines.now) }
    ensures remembered { pairs.new ≡ remembered lines.now pairs.old (length lines.now / 2) }
{
    for place in line_places(lines) {
        bits::put_in(pairs, pair_of(lines, place));
    }
}

// The place of a line is marked if the set of pairs has the line; then the set remembers it.
fn mark_line(lines: &[u16], place: Place, pairs: &mut [u64], again: &mut [u64])
    requires { Proper (network 1024 lines.now) × (place.0 < length lines.now / 2) }
    ensures marked { again.new ≡ pick (is_in pairs.old (pair_of lines.now place.0)) (put_in again.old place.0) again.old }
    ensures remembered { pairs.new ≡ put_in pairs.old (pair_of lines.now place.0) }
{
    let number = pair_of(lines, place);
    if bits::is_in(pairs, number) {
        bits::put_in(again, place.0 as usize);
    }
    bits::put_in(pairs, number);
}

// The places of the lines that the set of pairs has, or that stood before them in the list, are marked.
#[tactic(auto, unfolding(laws::specs::Fold::up_to, crate::specs::Pairs::mark_line), using(laws::proofs::Fold::up_to_more))]
fn mark_lines(lines: &[u16], pairs: &mut [u64], again: &mut [u64])
    requires { (length lines.now ≤ 16384) × Proper (network 1024 lines.now) }
    ensures marked { again.new ≡ marked lines.now pairs.old again.old (length lines.now / 2) }
{
    for place in line_places(lines) {
        mark_line(lines, place, pairs, again);
    }
}

// The places of the lines of the second list that stood earlier, found in a set of words that has a bit for each pair of the stations.
#[inline(never)]
#[tactic(auto, using(crate::proofs::Earlier::marks_earlier))]
pub fn find<const STATIONS: usize, const WORDS: usize>(
    first: &[u16],
    second: &[u16],
    again: &mut [u64],
)
    requires { (STATIONS ≤ 1024) × (WORDS ≤ 8184) × (pairs_of STATIONS ≤ 64 * WORDS) × Proper (network STATIONS first.now) × Proper (network STATIONS second.now) × (length first.now ≤ 16384) × (length second.now ≤ 16384) × (again.old ≡ replicate 128 0) }
    ensures again { (p : ℕ) → is_in again.new p ≡ (ltb p (length second.now / 2) && stood_earlier first.now second.now p) }
{
    let mut pairs = [0u64; WORDS];
    remember_lines(first, &mut pairs);
    mark_lines(second, &mut pairs, again);
}

// The places of the lines of the second list that stood earlier. Few stations need few bits cleared to find them.
pub fn find_earlier(n: usize, first: &[u16], second: &[u16], again: &mut [u64])
    requires { (n ≤ 1024) × Proper (network n first.now) × Proper (network n second.now) × (length first.now ≤ 16384) × (length second.now ≤ 16384) × (again.old ≡ replicate 128 0) }
    ensures again { (p : ℕ) → is_in again.new p ≡ (ltb p (length second.now / 2) && stood_earlier first.now second.now p) }
{
    if n <= FEW {
        find::<256, 510>(first, second, again);
    } else {
        find::<1024, 8184>(first, second, again);
    }
}
