// Going through the lines of a list by their places.
ghost use Rattle.std.specs.Prelude.{◌≡◌, ◌-◌, ◌/◌, ◌≤◌, length};
ghost use Rattle.std.specs.Iterator.{at_most};
ghost use Rattle.network.specs.Walks.{Steps};

use kinds::Place;

// The places of a list's lines that are still to come, in list order.
#[derive(Clone, Copy, Drop)]
pub struct Places {
    pub next: u16,
    pub end: u16,
}

impl Iterator for Places {
    type Item = Place;

    ghost next_gives = { Steps };

    ghost remaining = { λ s. at_most (s.end - s.next) };

    fn next(&mut self) -> Option<Place> {
        if self.end <= self.next {
            return None;
        }
        let place = Place(self.next);
        self.next += 1;
        Some(place)
    }
}

// The places of a list's lines.
pub fn line_places(lines: &[u16]) -> Places
    requires { length lines.now ≤ 16384 }
    ensures all { (result.next ≡ 0) × (result.end ≡ length lines.now / 2) }
{
    Places {
        next: 0,
        end: (lines.len() / 2) as u16,
    }
}
