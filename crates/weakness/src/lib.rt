// Weak spots: the fewest stations that, taken away, leave two others not joined.
#![tactic(auto)]

ghost use Rattle.std.specs.Prelude.{◌≡◌, ◌+◌, ◌*◌, ◌++◌, ◌/◌, ◌≤◌, length, drop};
ghost use Rattle.kept.specs.Kept.{kept_count};
ghost use Rattle.kinds.specs.Answers.{answer_of};
ghost use Rattle.parting.specs.Answers.{found_standing};
ghost use Rattle.tries.specs.Tries.{weak_spot};
ghost use Rattle.weakness.specs.Search.{weak_judged, weak_answer};
ghost use Rattle.weakness.specs.FromZero.{ranks_made};
ghost use Rattle.weakness.specs.Answers.{searched_answer};

use judging::judge_list;
use kept::copy_kept;
use kinds::{Level, LineList, Refusal};
use limits::{judge_length, judge_stations, judge_weak_level};
use network::SoundNetwork;
use parting::WeakSpot;
use ranks::prune_ranks;
use tries::search;

// The most stations for which the small tables have room.
const FEW_STATIONS: usize = 64;

// The most numbers of a list for which they have room: two for each of 256 lines.
const FEW_NUMBERS: usize = 512;

// Prunes a network from station 0 in every round, into the front of the ranks; how many lines are kept.
fn rank_lines(network: &SoundNetwork, level: Level, ranks: &mut [u8]) -> usize
    requires { (1 ≤ level.0) × (level.0 ≤ 3) × (length network.now.lines.now / 2 ≤ length ranks.old) }
    ensures ranks { ranks.new ≡ ranks_made network.now.n level.0 network.now.lines.now ++ drop (length network.now.lines.now / 2) ranks.old }
    ensures count { result ≡ kept_count (ranks_made network.now.n level.0 network.now.lines.now) }
{
    let starts = [0u16; 3];
    let starts = &starts[..level.0];
    let count = network.lines.len() / 2;
    prune_ranks(network.n, level, network.lines, starts, &mut ranks[..count])
}

// The search over the lines that pruning from station 0 keeps, with tables for networks of one size: what is taken away there parts the same
// stations. Copying does not refuse here, since the room has a place for each line. It stays a call, so that a small network takes no room
// on the stack for the tables of a large one.
#[inline(never)]
fn search_within<
    const LINES: usize,
    const NUMBERS: usize,
    const BEGINS: usize,
    const STATIONS: usize,
>(network: &SoundNetwork, level: Level) -> Option<WeakSpot>
    requires level { (1 ≤ level.0) × (level.0 ≤ 3) }
    requires room { (length network.now.lines.now / 2 ≤ LINES) × (2 * kept_count (ranks_made network.now.n level.0 network.now.lines.now) ≤ NUMBERS) × (network.now.n + 1 ≤ BEGINS) × (network.now.n ≤ STATIONS) }
    requires stack { (LINES ≤ 8192) × (NUMBERS ≤ 8192) × (BEGINS ≤ 8192) × (STATIONS ≤ 8192) }
    ensures found { found_standing result ≡ weak_spot network.now.n level.0 network.now.lines.now }
{
    let n = network.n;
    let mut ranks = [0u8; LINES];
    let mut kept = [0u16; NUMBERS];
    let size = 2 * rank_lines(network, level, &mut ranks);
    let _ = copy_kept(network.lines, &ranks, &mut kept);
    let pruned = SoundNetwork {
        n,
        lines: &kept[..size],
    };
    let mut begins = [0u16; BEGINS];
    let mut near = [0u16; NUMBERS];
    let mut gone = [false; STATIONS];
    let mut pieces = [0u16; STATIONS];
    let mut cut = [false; STATIONS];
    search(
        &pruned,
        level,
        &mut begins[..n + 1],
        &mut near[..size],
        &mut gone[..n],
        &mut pieces[..n],
        &mut cut[..n],
    )
}

// The search over a network that is not refused, with tables as large as it needs: pruning at level 3 keeps at most 3 times 1,023 lines.
fn search_network(network: &SoundNetwork, level: Level) -> Option<WeakSpot>
    requires { (1 ≤ level.0) × (level.0 ≤ 3) }
    ensures found { found_standing result ≡ weak_spot network.now.n level.0 network.now.lines.now }
{
    if network.n <= FEW_STATIONS && network.lines.len() <= FEW_NUMBERS {
        return search_within::<256, 512, 65, 64>(network, level);
    }
    search_within::<8192, 6144, 1025, 1024>(network, level)
}

// The judge of a search for a weak spot: 1, 2, 12, lines.
#[tactic(auto, unfolding(crate::specs::Search::weak_judged, network::specs::Judging::list_judged))]
fn judge_weak(n: usize, level: Level, lines: &[u16]) -> Result<(), Refusal>
    ensures answer { answer_of result ≡ weak_judged n level.0 lines.now }
{
    judge_stations(n)?;
    judge_length(LineList::Only, lines)?;
    judge_weak_level(level)?;
    judge_list(LineList::Only, n, lines)
}

// The weak spot of a network at a level from 1 to 3: the fewest stations, fewer than the level, that part two others; or that it stands.
#[tactic(auto, unfolding(crate::specs::Search::weak_answer))]
pub fn find_weak_spot(n: usize, level: Level, lines: &[u16]) -> Result<Option<WeakSpot>, Refusal>
    ensures answer { searched_answer result ≡ weak_answer n level.0 lines.now }
{
    judge_weak(n, level, lines)?;
    let network = SoundNetwork { n, lines };
    Ok(search_network(&network, level))
}
