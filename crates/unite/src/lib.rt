// The union of two line lists.
#![tactic(auto)]

ghost use Rattle.std.specs.Prelude.{◌≡◌, not, count_by, ◌/◌, ◌≤◌, length};
ghost use Rattle.std.specs.List.{range_with_len};
ghost use Rattle.bits.specs.Sets.{is_in};
ghost use Rattle.kinds.specs.Answers.{answer_of};
ghost use Rattle.network.specs.Faults.{Sound};
ghost use Rattle.kept.specs.Kept.{after};
ghost use Rattle.unite.specs.Union.{united, lists_judged, size_answer};
ghost use Rattle.unite.specs.Answers.{UniteAllows};
ghost use Rattle.unite.specs.Adding.{Marks};

use bits::is_in;
use earlier::find_earlier;
use judging::judge_list;
use kept::put_lines;
use kinds::{LineList, Refusal};
use limits::{judge_length, judge_stations};

// The most numbers of a union: two for each of 8,192 lines.
const MOST_NUMBERS: usize = 16384;

// The two lists: refusal 1; 2 for each list; lines of the first, then of the second.
#[tactic(auto, unfolding(crate::specs::Union::lists_judged, network::specs::Judging::list_judged))]
fn judge_lists(n: usize, first: &[u16], second: &[u16]) -> Result<(), Refusal>
    ensures answer { answer_of result ≡ lists_judged n first.now second.now }
{
    judge_stations(n)?;
    judge_length(LineList::First, first)?;
    judge_length(LineList::Second, second)?;
    judge_list(LineList::First, n, first)?;
    judge_list(LineList::Second, n, second)
}

// How many lines of a list are new: `again` lacks their places.
fn count_new(lines: &[u16], again: &[u64]) -> usize
    ensures count { result ≡ count_by (λ p. not (is_in again.now p)) (range_with_len 0 (length lines.now / 2)) }
{
    let places = lines.len() / 2;
    (0..places).filter(|p| !is_in(again, *p)).count()
}

// The numbers of a list, in a room of its size. Their copy is a loop of its own, so that the library asks nothing of C but to clear memory.
fn copy_list(lines: &[u16], room: &mut [u16])
    requires { length room.old ≡ length lines.now }
    ensures copied { room.new ≡ lines.now }
{
    for (i, number) in lines.iter().enumerate() {
        room[i] = *number;
    }
}

// Unites two lists; `again` has the places of those lines of the second that stand in the first: 13; 5; else the union is written.
#[tactic(auto, unfolding(crate::specs::Union::size_answer, crate::specs::Union::union_judged, crate::specs::Union::union_short, limits::specs::Limits::room_judged, kept::specs::Kept::after))]
fn unite_marked(
    first: &[u16],
    second: &[u16],
    again: &[u64],
    room: &mut [u16],
) -> Result<usize, Refusal>
    requires { (length first.now ≤ 16384) × (length second.now ≤ 16384) × Marks first.now second.now again.now }
    ensures answer { answer_of result ≡ size_answer first.now second.now (length room.old) }
    ensures room { room.new ≡ after (answer_of result) (united first.now second.now) room.old }
{
    let size = first.len() + 2 * count_new(second, again);
    if MOST_NUMBERS < size {
        return Err(Refusal::UnionCount);
    }
    if room.len() < size {
        return Err(Refusal::Room);
    }
    let (front, rest) = room.split_at_mut(first.len());
    copy_list(first, front);
    put_lines(second, |place| !is_in(again, place.0 as usize), rest);
    Ok(size / 2)
}

// Unites two lists that are sound.
#[tactic(auto, using(crate::proofs::Adding::sound_marks))]
fn unite_lists(n: usize, first: &[u16], second: &[u16], room: &mut [u16]) -> Result<usize, Refusal>
    requires { Sound n first.now × Sound n second.now }
    ensures answer { answer_of result ≡ size_answer first.now second.now (length room.old) }
    ensures room { room.new ≡ after (answer_of result) (united first.now second.now) room.old }
{
    let mut again = [0u64; 128];
    find_earlier(n, first, second, &mut again);
    unite_marked(first, second, &again, room)
}

// Unites two line lists over n stations: the first list, then those lines of the second that the first lacks, in order and as written there.
// It says how many lines it wrote, or why it refuses.
#[tactic(auto, unfolding(crate::specs::Union::union_answer, kept::specs::Kept::after))]
pub fn unite(n: usize, first: &[u16], second: &[u16], room: &mut [u16]) -> Result<usize, Refusal>
    ensures allowed { UniteAllows n first.now second.now room.old result room.new }
{
    judge_lists(n, first, second)?;
    unite_lists(n, first, second, room)
}
