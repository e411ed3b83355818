// The line list of a network: a line and its rank, and the judge of its ends.
#![tactic(auto)]

mod judged; // judged.rt: a network that a judge has taken
mod places; // places.rt: going through the lines of a list by their places
mod stations; // stations.rt: looking for a station

ghost use Rattle.std.specs.Prelude.{◌≡◌, ◌/◌, ◌<◌, length, get_or};
ghost use Rattle.kinds.specs.Answers.{answer_of};
ghost use Rattle.kinds.specs.Refusals.{list_number};
ghost use Rattle.network.specs.Lines.{end_one, end_two};
ghost use Rattle.network.specs.Judging.{ends_judged};

pub use judged::SoundNetwork;
use kinds::{LineList, Place, Refusal, Round, Station};
pub use places::{Places, line_places};
pub use stations::lowest_station;

// A line: its two ends, as written.
#[derive(Clone, Copy)]
pub struct Line {
    pub one: Station,
    pub two: Station,
}

// The line at a place of the list.
pub fn line_at(lines: &[u16], place: Place) -> Line
    requires { place.0 < length lines.now / 2 }
    ensures ends { (result.one.0 ≡ end_one lines.now place.0) × (result.two.0 ≡ end_two lines.now place.0) }
{
    let index = 2 * (place.0 as usize);
    Line {
        one: Station(lines[index]),
        two: Station(lines[index + 1]),
    }
}

// The rank of the line at a place; 0 past the end of the ranks.
pub fn rank_at(ranks: &[u8], place: Place) -> Round
    ensures rank { result.0 ≡ get_or ranks.now place.0 0 }
{
    Round(ranks.get(place.0 as usize).copied().unwrap_or(0))
}

// Refusals 6 and 7: whether each end is a station, and whether the two differ.
#[tactic(auto, unfolding(crate::specs::Judging::ends_judged))]
pub fn judge_ends(list: LineList, n: usize, line: Line, place: Place) -> Result<(), Refusal>
    ensures answer { answer_of result ≡ ends_judged (list_number list) n line.one.0 line.two.0 place.0 }
{
    if n <= line.one.0 as usize || n <= line.two.0 as usize {
        return Err(Refusal::EndOutside(list, place));
    }
    if line.one == line.two {
        return Err(Refusal::EndsEqual(list, place));
    }
    Ok(())
}
