// What the check of a plan can find; and its test of a round's entries, that they are each station once.
#![tactic(auto)]

ghost use Rattle.std.specs.Prelude.{◌≡◌, false, ◌+◌, ◌≤◌, ◌<◌, length};
ghost use Rattle.plans.specs.Verdicts.{is_faulty};
ghost use Rattle.plans.specs.Checking.{entry_verdict, order_verdict};
ghost use Rattle.entries.specs.Answers.{fault_said, verdict_said};
ghost use Rattle.entries.specs.Placed.{Placed};

use kinds::{Place, Position, Round, Station};

// What is wrong: a kind of the document's table, with its own place.
#[derive(Clone, Copy, PartialEq, Eq)]
pub enum FaultKind {
    // A: a line's rank is above k.
    RankAbove(Place),
    // B: the round's entries are not each station once.
    NotEachOnce(Position),
    // C: a station's line to the earliest of its earlier neighbours in play lacks the round's rank.
    ParentLacking(Station),
    // D: a station has a line of the round's rank to another earlier station.
    OtherParent(Station),
    // E: a line in play has its ends in different trees.
    TreesApart(Place),
}

// A fault, in its round; A has round 0.
#[derive(Clone, Copy, PartialEq, Eq)]
pub struct Fault {
    pub round: Round,
    pub kind: FaultKind,
}

// What is found in a plan: nothing wrong, or its first fault.
#[derive(Clone, Copy, PartialEq, Eq)]
pub enum Verdict {
    Accepted,
    Faulty(Fault),
}

// The check stops at the first fault as at an error, and that is its verdict.
impl From<Result<(), Fault>> for Verdict {
    ghost from_gives = { λ found verdict. verdict_said verdict ≡ fault_said found };

    fn from(found: Result<(), Fault>) -> Verdict {
        match found {
            Ok(()) => Verdict::Accepted,
            Err(fault) => Verdict::Faulty(fault),
        }
    }
}

// B at a position: its entry is a station that did not stand before. The table then has the position of that station too.
#[tactic(auto, using(crate::proofs::Placing::entry_outside, crate::proofs::Placing::entry_repeated, crate::proofs::Placing::entry_new, crate::proofs::Placing::entry_placed))]
fn place_entry(
    n: usize,
    round: Round,
    position: Position,
    order: &[u16],
    positions: &mut [u16],
) -> Result<(), Fault>
    requires { (n ≤ 1024) × (position.0 < n) × (length order.now ≡ n) × Placed n order.now position.0 positions.old }
    ensures verdict { fault_said result ≡ entry_verdict n round.0 order.now position.0 }
    ensures placed { is_faulty (fault_said result) ≡ false → Placed n order.now (position.0 + 1) positions.new }
{
    let v = order[position.0 as usize] as usize;
    if n <= v || (positions[v] as usize) < n {
        return Err(Fault {
            round,
            kind: FaultKind::NotEachOnce(position),
        });
    }
    positions[v] = position.0;
    Ok(())
}

// B: the permutation test of a round's entries, with a table in which no station is placed yet.
#[tactic(auto, using(laws::proofs::Fold::first_start, laws::proofs::Fold::first_next, laws::proofs::Fold::first_here, laws::proofs::Fold::first_none), unfolding(plans::specs::Checking::order_verdict))]
pub fn check_order(
    n: usize,
    round: Round,
    order: &[u16],
    positions: &mut [u16],
) -> Result<(), Fault>
    requires { (n ≤ 1024) × (length order.now ≡ n) × Placed n order.now 0 positions.old }
    ensures verdict { fault_said result ≡ order_verdict n round.0 order.now }
    ensures placed { is_faulty (fault_said result) ≡ false → Placed n order.now n positions.new }
{
    for j in 0..n {
        place_entry(n, round, Position(j as u16), order, positions)?;
    }
    Ok(())
}
