// The rounds of the scan rule for the ranks alone, and what all rounds share: lines put in play, and one round after some others.
#![tactic(auto)]

ghost use Rattle.std.specs.Prelude.{◌≡◌, false, ◌+◌, ◌/◌, ◌<◌, length, get_or, replicate};
ghost use Rattle.request.specs.Requests.{Request};
ghost use Rattle.kept.specs.Kept.{kept_count};
ghost use Rattle.rule.specs.Rule.{one_round};
ghost use Rattle.rule.specs.Rounds.{pruned};
ghost use Rattle.scan.specs.Asked.{Scannable};
ghost use Rattle.ranks.specs.Sizes.{InOrder};

use kept::count_kept;
use kinds::{Level, Round, Station};
use scan::{Progress, scan_round};

// Every line is in play.
pub fn clear(ranks: &mut [u8])
    ensures cleared { ranks.new ≡ replicate (length ranks.old) 0 }
{
    ranks.fill(0);
}

// The round that comes after `done` others, from its starting station. Its order is written over what is lent for it.
pub fn one_round(
    done: usize,
    n: usize,
    lines: &[u16],
    starts: &[u16],
    ranks: &mut [u8],
    order: &mut [u16],
    progress: &mut Progress,
)
    requires { Scannable n lines.now ranks.old × InOrder n (length starts.now) starts.now × (done < length starts.now) × (length order.old ≡ n) }
    ensures ranks { ranks.new ≡ (one_round n lines.now (done + 1) (get_or starts.now done 0) ranks.old).ranks }
    ensures order { order.new ≡ (one_round n lines.now (done + 1) (get_or starts.now done 0) ranks.old).order }
{
    let start = Station(starts[done]);
    let round = Round((done + 1) as u8);
    scan_round(round, start, n, lines, ranks, order, progress);
}

// Every line is put in play, and the rounds 1 to k take theirs, each with its order written over the one before.
#[tactic(auto, unfolding(rule::specs::Rounds::pruned, rule::specs::Rounds::all_rounds, laws::specs::Fold::up_to), using(laws::proofs::Fold::up_to_more, rule::proofs::Rounds::ranks_more, scan::proofs::Scannable::scannable_alike, crate::proofs::Asked::in_order_each))]
fn rank_rounds(
    level: Level,
    n: usize,
    lines: &[u16],
    starts: &[u16],
    ranks: &mut [u8],
    order: &mut [u16],
    progress: &mut Progress,
)
    requires { Scannable n lines.now ranks.old × InOrder n level.0 starts.now × (length order.old ≡ n) }
    ensures ranks { ranks.new ≡ (pruned n level.0 lines.now starts.now).ranks }
{
    clear(ranks);
    for done in 0..level.0 {
        one_round(done, n, lines, starts, ranks, order, progress);
    }
}

// Prunes a network that was judged to be in order, for its ranks alone: room for one order is enough. Says how many lines are kept.
#[tactic(auto, using(crate::proofs::Asked::request_scannable, crate::proofs::Asked::request_in_order))]
pub fn prune_ranks(n: usize, level: Level, lines: &[u16], starts: &[u16], ranks: &mut [u8]) -> usize
    requires { Request n level.0 lines.now starts.now false × (length ranks.old ≡ length lines.now / 2) }
    ensures ranks { ranks.new ≡ (pruned n level.0 lines.now starts.now).ranks }
    ensures count { result ≡ kept_count (pruned n level.0 lines.now starts.now).ranks }
{
    let mut order = [0u16; 1024];
    let mut progress = Progress::default();
    rank_rounds(
        level,
        n,
        lines,
        starts,
        ranks,
        &mut order[..n],
        &mut progress,
    );
    count_kept(ranks)
}
