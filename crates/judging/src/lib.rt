// The judge of a network: refusals 1 and 2, then each line in list order for 6, 7 and 8.
#![tactic(auto)]

ghost use Rattle.std.specs.Prelude.{◌≡◌, ◌≤◌, length};
ghost use Rattle.kinds.specs.Answers.{answer_of};
ghost use Rattle.kinds.specs.Refusals.{list_number};
ghost use Rattle.network.specs.Judging.{lines_judged, list_judged};
ghost use Rattle.judging.specs.Ends.{good_ends, Marks};

use bits::lowest_in;
use earlier::find_earlier;
use kinds::{LineList, Place, Refusal};
use limits::{judge_length, judge_stations};
use network::{judge_ends, line_at, line_places};

// How many lines stand before the first whose ends 6 or 7 refuses; all of them where there is none.
#[tactic(auto, unfolding(crate::specs::Ends::good_ends), using(laws::proofs::Fold::first_start, laws::proofs::Fold::first_next, laws::proofs::Fold::first_here, laws::proofs::Fold::first_none, crate::proofs::Lines::err_refused))]
fn good_ends(list: LineList, n: usize, lines: &[u16]) -> usize
    requires { length lines.now ≤ 16384 }
    ensures count { result ≡ good_ends (list_number list) n lines.now }
{
    for place in line_places(lines) {
        if judge_ends(list, n, line_at(lines, place), place).is_err() {
            return place.0 as usize;
        }
    }
    lines.len() / 2
}

// Each line in list order: `until` lines at the front have good ends, and `again` has the places of those of them that stood earlier.
fn judge_marked(
    list: LineList,
    n: usize,
    lines: &[u16],
    until: usize,
    again: &[u64],
) -> Result<(), Refusal>
    requires { (length lines.now ≤ 16384) × (until ≡ good_ends (list_number list) n lines.now) × Marks until lines.now again.now × (length again.now ≡ 128) }
    ensures answer { answer_of result ≡ lines_judged (list_number list) n lines.now }
{
    let words = until.div_ceil(64);
    let first = lowest_in(&again[..words]);
    if first < until {
        return Err(Refusal::StoodEarlier(list, Place(first as u16)));
    }
    if until < lines.len() / 2 {
        let place = Place(until as u16);
        return judge_ends(list, n, line_at(lines, place), place);
    }
    Ok(())
}

// Each line in list order: refusals 6, 7 and 8. Only lines with good ends can be looked up by the pair that they join.
#[tactic(auto, using(crate::proofs::Lines::good_most, crate::proofs::Lines::nothing_proper, crate::proofs::Lines::front_size, crate::proofs::Lines::front_proper, crate::proofs::Lines::front_marks))]
fn judge_lines(list: LineList, n: usize, lines: &[u16]) -> Result<(), Refusal>
    requires { (n ≤ 1024) × (length lines.now ≤ 16384) }
    ensures answer { answer_of result ≡ lines_judged (list_number list) n lines.now }
{
    let until = good_ends(list, n, lines);
    let mut again = [0u64; 128];
    find_earlier(n, &[], &lines[..2 * until], &mut again);
    judge_marked(list, n, lines, until, &again)
}

// The judge of one of several lists: refusal 1, then 2, then each line in list order for 6, 7 and 8.
#[tactic(auto, unfolding(network::specs::Judging::list_judged), using(limits::proofs::Limits::stations_good, limits::proofs::Limits::length_good))]
pub fn judge_list(list: LineList, n: usize, lines: &[u16]) -> Result<(), Refusal>
    ensures answer { answer_of result ≡ list_judged (list_number list) n lines.now }
{
    judge_stations(n)?;
    judge_length(list, lines)?;
    judge_lines(list, n, lines)
}

// The judge of a network: is it taken, and if not, which refusal is the first that holds, and where?
pub fn judge(n: usize, lines: &[u16]) -> Result<(), Refusal>
    ensures answer { answer_of result ≡ list_judged 0 n lines.now }
{
    judge_list(LineList::Only, n, lines)
}
