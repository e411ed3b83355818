// The check of forests for C: the verdict's kind, round and place as numbers.
ghost use Rattle.std.specs.Prelude.{◌≡◌};
ghost use Rattle.tapuhzel.specs.Calls.{check_call};

use codes::{say, say_verdict};
use entries::Verdict;
use kinds::Level;

// The check of forests, over ranks and orders from anywhere.
pub fn tapuhzel_check(
    n: usize,
    level: usize,
    lines: &[u16],
    ranks: &[u8],
    orders: &[u16],
    kind: &mut u8,
    round: &mut u8,
    at: &mut usize,
    place: &mut usize,
    list: &mut u8,
) -> u8
    ensures call { ((result, place.new, list.new), kind.new, round.new, at.new) ≡ check_call n level lines.now ranks.now orders.now }
{
    let answer = forests::check(n, Level(level), lines, ranks, orders);
    say_verdict(answer.unwrap_or(Verdict::Accepted), kind, round, at);
    say(&answer, place, list)
}
