// One round of the scan rule, over the caller's lent buffers. Marked and scanned stations are sets in words, a bit for each station.
#![tactic(auto)]

ghost use Rattle.std.specs.Prelude.{◌≡◌, List, [], ◌∷◌, ◌++◌, ℕ, ◌*◌, ◌≤◌, ◌<◌, length};
ghost use Rattle.bits.specs.Sets.{members};
ghost use Rattle.rule.specs.Rule.{marks, take_to, take_line, scan_station, next_station, scanning, round_start, scan_next, all_scanned, one_round};
ghost use Rattle.scan.specs.Asked.{Scannable};

use bits::{empty, is_in, lowest_out, lowest_without, put_in};
use kinds::{Place, Round, Station};
use network::{line_at, line_places};

// How far a round has come: the stations that it has marked, and those that it has scanned, a bit for each of up to 1,024.
#[derive(Default, Drop)]
pub struct Progress {
    pub marked: [u64; 16],
    pub scanned: [u64; 16],
}

impl Progress {
    // The start of a round, however far another has come: only its starting station is marked, and none is scanned.
    #[tactic(auto, using(crate::proofs::Start::round_starts))]
    fn start(&mut self, start: Station)
        ensures started { (n : ℕ) (ranks : List ℕ) → start.0 < n → n ≤ 1024 → scanning ranks (members n self.new.marked) (members n self.new.scanned) [] ≡ round_start n start.0 ranks }
    {
        empty(&mut self.marked);
        empty(&mut self.scanned);
        put_in(&mut self.marked, start.0 as usize);
    }

    // The next station to scan: the lowest that is marked and unscanned, else the lowest that is unmarked, else 0.
    #[tactic(auto, using(crate::proofs::Next::next_ready, crate::proofs::Next::next_fresh, crate::proofs::Next::next_none))]
    fn next_station(&self, n: usize) -> Station
        requires { (0 < n) × (n ≤ 1024) }
        ensures next { (result.0 ≡ next_station n (members n self.now.marked) (members n self.now.scanned)) × (result.0 < n) }
    {
        let ready = lowest_without(&self.marked, &self.scanned);
        if ready < n {
            return Station(ready as u16);
        }
        let fresh = lowest_out(&self.marked);
        if fresh < n {
            return Station(fresh as u16);
        }
        Station(0)
    }
}

// A line that leads to v: if it is in play and v is unmarked, the round takes it, and v is marked.
#[tactic(auto, unfolding(rule::specs::Rule::take_to), using(bits::proofs::Sets::members_at, bits::proofs::Sets::members_put))]
fn take_to(round: Round, place: Place, v: Station, ranks: &mut [u8], marked: &mut [u64; 16])
    requires { place.0 < length ranks.old }
    ensures taken { (n : ℕ) → v.0 < n → n ≤ 1024 → marks ranks.new (members n marked.new) ≡ take_to round.0 place.0 v.0 (marks ranks.old (members n marked.old)) }
{
    let p = place.0 as usize;
    let w = v.0 as usize;
    if ranks[p] != 0 {
        return;
    }
    if is_in(marked, w) {
        return;
    }
    ranks[p] = round.0;
    put_in(marked, w);
}

// A line, in the scan of u.
#[tactic(auto, unfolding(rule::specs::Rule::take_line))]
fn take_line(
    round: Round,
    u: Station,
    place: Place,
    lines: &[u16],
    ranks: &mut [u8],
    marked: &mut [u64; 16],
)
    requires { (place.0 < length ranks.old) × (length lines.now ≡ 2 * length ranks.old) }
    ensures taken { (n : ℕ) → Scannable n lines.now ranks.old → marks ranks.new (members n marked.new) ≡ take_line lines.now round.0 u.0 place.0 (marks ranks.old (members n marked.old)) }
{
    let line = line_at(lines, place);
    if line.one == u {
        take_to(round, place, line.two, ranks, marked);
        return;
    }
    if line.two == u {
        take_to(round, place, line.one, ranks, marked);
    }
}

// The scan of u: every line, in list order.
#[tactic(auto, unfolding(rule::specs::Rule::scan_station, laws::specs::Fold::up_to), using(laws::proofs::Fold::up_to_more, crate::proofs::Scannable::scannable_alike))]
fn scan_station(round: Round, u: Station, lines: &[u16], ranks: &mut [u8], marked: &mut [u64; 16])
    requires { (length lines.now ≤ 16384) × (length lines.now ≡ 2 * length ranks.old) }
    ensures scanned { (n : ℕ) → Scannable n lines.now ranks.old → marks ranks.new (members n marked.new) ≡ scan_station lines.now round.0 u.0 (marks ranks.old (members n marked.old)) }
{
    for place in line_places(lines) {
        take_line(round, u, place, lines, ranks, marked);
    }
}

// One scan more, and the station that it scanned.
#[tactic(auto, unfolding(rule::specs::Rule::scan_next, rule::specs::Rule::scan_as), using(bits::proofs::Sets::members_put))]
fn scan_next(
    round: Round,
    n: usize,
    lines: &[u16],
    ranks: &mut [u8],
    progress: &mut Progress,
) -> Station
    requires { Scannable n lines.now ranks.old }
    ensures scanned { (order : List ℕ) → scanning ranks.new (members n progress.new.marked) (members n progress.new.scanned) (order ++ (result.0 ∷ [])) ≡ scan_next n lines.now round.0 (scanning ranks.old (members n progress.old.marked) (members n progress.old.scanned) order) }
{
    let u = progress.next_station(n);
    let w = u.0 as usize;
    put_in(&mut progress.marked, w);
    scan_station(round, u, lines, ranks, &mut progress.marked);
    put_in(&mut progress.scanned, w);
    u
}

// The scans of a round whose starting station is marked: the order is filled from the front.
fn scan_all(
    round: Round,
    n: usize,
    lines: &[u16],
    ranks: &mut [u8],
    order: &mut [u16],
    progress: &mut Progress,
)
    requires { Scannable n lines.now ranks.old × (length order.old ≡ n) }
    ensures ranks { ranks.new ≡ (all_scanned n lines.now round.0 (scanning ranks.old (members n progress.old.marked) (members n progress.old.scanned) [])).ranks }
    ensures order { order.new ≡ (all_scanned n lines.now round.0 (scanning ranks.old (members n progress.old.marked) (members n progress.old.scanned) [])).order }
{
    for slot in order.iter_mut() {
        *slot = scan_next(round, n, lines, ranks, progress).0;
    }
}

// One round from its starting station, however far `progress` says that another has come. It fills the whole of `order`.
pub fn scan_round(
    round: Round,
    start: Station,
    n: usize,
    lines: &[u16],
    ranks: &mut [u8],
    order: &mut [u16],
    progress: &mut Progress,
)
    requires { Scannable n lines.now ranks.old × (start.0 < n) × (length order.old ≡ n) }
    ensures ranks { ranks.new ≡ (one_round n lines.now round.0 start.0 ranks.old).ranks }
    ensures order { order.new ≡ (one_round n lines.now round.0 start.0 ranks.old).order }
{
    progress.start(start);
    scan_all(round, n, lines, ranks, order, progress);
}
