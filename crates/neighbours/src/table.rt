// The table of neighbours, as those who read it are lent it.
ghost use Rattle.std.specs.Prelude.{◌≡◌, ◌+◌, ◌<◌, ◌≤◌, get_or, MatchOption};
ghost use Rattle.neighbours.specs.Near.{Bound};

use kinds::Station;

// Where a neighbour stands in the table.
#[derive(Clone, Copy, PartialEq, Eq, PartialOrd, Ord)]
pub struct Entry(pub u16);

// The neighbours of n stations, within bounds: those of station u stand from begins[u] to before begins[u + 1].
#[derive(Clone, Copy)]
pub struct Neighbours<'a> {
    pub n: usize,
    pub begins: &'a [u16],
    pub near: &'a [u16],
    pub ghost few: { n ≤ 1024 },
    pub ghost bound: { Bound n begins.now near.now },
}

impl Neighbours<'_> {
    // Where the neighbours of a station begin.
    pub fn first(&self, station: Station) -> Entry
        requires { station.0 < self.now.n }
        ensures first { result.0 ≡ get_or self.now.begins.now station.0 0 }
    {
        Entry(self.begins[station.0 as usize])
    }

    // The neighbour of a station at an entry, or none if the entry is past the station's last.
    pub fn at(&self, station: Station, entry: Entry) -> Option<Station>
        requires { station.0 < self.now.n }
        ensures neighbour { MatchOption result (get_or self.now.begins.now (station.0 + 1) 0 ≤ entry.0) (λ v. (entry.0 < get_or self.now.begins.now (station.0 + 1) 0) × (v.0 ≡ get_or self.now.near.now entry.0 0)) }
    {
        if self.begins[station.0 as usize + 1] <= entry.0 {
            return None;
        }
        Some(Station(self.near[entry.0 as usize]))
    }
}
