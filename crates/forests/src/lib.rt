// The check of forests: whether rounds and orders from anywhere meet the published definition.
#![tactic(auto)]

ghost use Rattle.std.specs.Prelude.{◌≡◌, ◌*◌, ◌≤◌, length};
ghost use Rattle.entries.specs.Answers.{fault_said};
ghost use Rattle.forests.specs.Answers.{checked_answer};
ghost use Rattle.kinds.specs.Answers.{answer_of};
ghost use Rattle.plans.specs.Checking.{rank_verdict, ranks_verdict, rounds_verdict, plan_verdict, plan_judged, check_answer};
ghost use Rattle.rounds.specs.Tables.{Room};

use entries::{Fault, FaultKind, Verdict};
use judging::judge_list;
use kinds::{Level, LineList, Place, Position, Refusal, Round};
use limits::{is_plan_short, judge_length, judge_level, judge_room, judge_stations};
use network::{SoundNetwork, line_places, rank_at};
use rounds::check_round;
use seen::Sighting;

// A: the rank of the line at a place is above k.
#[tactic(auto, unfolding(plans::specs::Checking::rank_verdict))]
fn check_rank(level: Level, place: Place, ranks: &[u8]) -> Result<(), Fault>
    ensures verdict { fault_said result ≡ rank_verdict level.0 ranks.now place.0 }
{
    if level.0 < rank_at(ranks, place).0 as usize {
        return Err(Fault {
            round: Round(0),
            kind: FaultKind::RankAbove(place),
        });
    }
    Ok(())
}

// A over all lines by place.
#[tactic(auto, using(laws::proofs::Fold::first_start, laws::proofs::Fold::first_next, laws::proofs::Fold::first_here, laws::proofs::Fold::first_none), unfolding(plans::specs::Checking::ranks_verdict))]
fn check_ranks(level: Level, lines: &[u16], ranks: &[u8]) -> Result<(), Fault>
    requires { length lines.now ≤ 16384 }
    ensures verdict { fault_said result ≡ ranks_verdict level.0 lines.now ranks.now }
{
    for place in line_places(lines) {
        check_rank(level, place, ranks)?;
    }
    Ok(())
}

// The rounds 1 to k, each with its part of the orders.
fn check_rounds(
    level: Level,
    network: &SoundNetwork,
    ranks: &[u8],
    orders: &[u16],
    positions: &mut [u16],
    sightings: &mut [Sighting],
    trees: &mut [u16],
) -> Result<(), Fault>
    requires { (level.0 ≤ 16) × (level.0 * network.now.n ≤ length orders.now) × Room network.now.n positions.old sightings.old trees.old }
    ensures verdict { fault_said result ≡ rounds_verdict network.now.n level.0 network.now.lines.now ranks.now orders.now }
{
    let n = network.n;
    for i in 0..level.0 {
        let order = &orders[i * n..i * n + n];
        let round = Round((i + 1) as u8);
        check_round(round, network, ranks, order, positions, sightings, trees)?;
    }
    Ok(())
}

// The rounds, with tables to work in.
fn run_rounds(
    level: Level,
    network: &SoundNetwork,
    ranks: &[u8],
    orders: &[u16],
) -> Result<(), Fault>
    requires { (level.0 ≤ 16) × (level.0 * network.now.n ≤ length orders.now) }
    ensures verdict { fault_said result ≡ rounds_verdict network.now.n level.0 network.now.lines.now ranks.now orders.now }
{
    let nothing = Sighting {
        earliest: Position(0),
        parent: false,
        other: false,
    };
    let mut positions = [0u16; 1024];
    let mut sightings = [nothing; 1024];
    let mut trees = [0u16; 1024];
    let n = network.n;
    check_rounds(
        level,
        network,
        ranks,
        orders,
        &mut positions[..n],
        &mut sightings[..n],
        &mut trees[..n],
    )
}

// What is found in a plan that is not refused: A, then each round in turn.
#[tactic(auto, using(plans::proofs::Verdicts::or_faulty, plans::proofs::Verdicts::or_next), unfolding(plans::specs::Checking::plan_verdict))]
fn check_plan(
    level: Level,
    network: &SoundNetwork,
    ranks: &[u8],
    orders: &[u16],
) -> Result<(), Fault>
    requires { (level.0 ≤ 16) × (level.0 * network.now.n ≤ length orders.now) }
    ensures verdict { fault_said result ≡ plan_verdict network.now.n level.0 network.now.lines.now ranks.now orders.now }
{
    check_ranks(level, network.lines, ranks)?;
    run_rounds(level, network, ranks, orders)
}

// The refusals 1, 2, 3, 5, then lines.
#[tactic(auto, unfolding(plans::specs::Checking::plan_judged, network::specs::Judging::list_judged))]
fn judge_plan(n: usize, level: Level, lines: &[u16], short: bool) -> Result<(), Refusal>
    ensures answer { answer_of result ≡ plan_judged n level.0 lines.now short }
{
    judge_stations(n)?;
    judge_length(LineList::Only, lines)?;
    judge_level(level)?;
    judge_room(short)?;
    judge_list(LineList::Only, n, lines)
}

// The check of forests, over ranks and orders from anywhere: what it finds, or why the input is refused.
#[tactic(auto, unfolding(plans::specs::Checking::check_answer))]
pub fn check(
    n: usize,
    level: Level,
    lines: &[u16],
    ranks: &[u8],
    orders: &[u16],
) -> Result<Verdict, Refusal>
    ensures answer { checked_answer result ≡ check_answer n level.0 lines.now ranks.now orders.now }
{
    let short = is_plan_short(n, level, lines, ranks.len(), orders.len());
    judge_plan(n, level, lines, short)?;
    let network = SoundNetwork { n, lines };
    Ok(Verdict::from(check_plan(level, &network, ranks, orders)))
}
