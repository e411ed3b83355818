// Pruning: k rounds of the scan rule, over the caller's lent buffers.
#![tactic(auto)]

ghost use Rattle.std.specs.Prelude.{◌≡◌, ◌*◌, length};
ghost use Rattle.kept.specs.Kept.{kept_count};
ghost use Rattle.scan.specs.Asked.{Scannable};
ghost use Rattle.prune.specs.Answers.{PruneAllows};
ghost use Rattle.rule.specs.Rounds.{rounds, all_rounds, pruned};
ghost use Rattle.ranks.specs.Sizes.{InOrder};

use kept::count_kept;
use kinds::{Level, Refusal};
use limits::is_plan_short;
use ranks::{clear, one_round};
use request::judge_request;
use scan::Progress;

// The rounds 1 to k. Round i is lent its part of the orders, the n places that begin at (i - 1) times n.
fn all_rounds(
    level: Level,
    n: usize,
    lines: &[u16],
    starts: &[u16],
    ranks: &mut [u8],
    orders: &mut [u16],
    progress: &mut Progress,
)
    requires { Scannable n lines.now ranks.old × InOrder n level.0 starts.now × (length orders.old ≡ level.0 * n) }
    ensures rounds { rounds ranks.new orders.new ≡ all_rounds n level.0 lines.now starts.now ranks.old }
{
    for done in 0..level.0 {
        let at = done * n;
        let order = &mut orders[at..at + n];
        one_round(done, n, lines, starts, ranks, order, progress);
    }
}

// Prunes what was judged to be in order, into buffers of just the right size: every line is put in play, the rounds take theirs, and what
// they took is counted.
#[tactic(auto, unfolding(rule::specs::Rounds::pruned), using(scan::proofs::Scannable::scannable_alike))]
fn run(
    level: Level,
    n: usize,
    lines: &[u16],
    starts: &[u16],
    ranks: &mut [u8],
    orders: &mut [u16],
) -> usize
    requires { Scannable n lines.now ranks.old × InOrder n level.0 starts.now × (length orders.old ≡ level.0 * n) }
    ensures rounds { rounds ranks.new orders.new ≡ pruned n level.0 lines.now starts.now }
    ensures count { result ≡ kept_count (pruned n level.0 lines.now starts.now).ranks }
{
    let mut progress = Progress::default();
    clear(ranks);
    all_rounds(level, n, lines, starts, ranks, orders, &mut progress);
    count_kept(ranks)
}

// Prunes a network of n stations at a level, from a starting station for each round: each line's rank, each round's order. It says how many
// lines are kept, or why the input is refused.
#[tactic(auto, unfolding(crate::specs::Pruning::prune_answer, kept::specs::Kept::after))]
pub fn prune(
    n: usize,
    level: Level,
    lines: &[u16],
    starts: &[u16],
    ranks: &mut [u8],
    orders: &mut [u16],
) -> Result<usize, Refusal>
    ensures allowed { PruneAllows n level.0 lines.now starts.now ranks.old orders.old result ranks.new orders.new }
{
    let short = is_plan_short(n, level, lines, ranks.len(), orders.len());
    judge_request(n, level, lines, starts, short)?;
    let count = lines.len() / 2;
    let size = level.0 * n;
    let kept = run(
        level,
        n,
        lines,
        starts,
        &mut ranks[..count],
        &mut orders[..size],
    );
    Ok(kept)
}
