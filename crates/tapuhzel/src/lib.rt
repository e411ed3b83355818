// The C face: the public routines on numbers and lent slices, which `tapuhzel_c` exports. `codes` says how an answer is encoded, and
// include/tapuhzel.h says it for C.
#![tactic(auto)]

mod verdict; // verdict.rt: the check of forests
mod spot; // spot.rt: weak spots
mod file; // file.rt: the network file, and the texts of the programs

ghost use Rattle.std.specs.Prelude.{◌≡◌};
ghost use Rattle.tapuhzel.specs.Calls.{judge_call, prune_call, copy_call, unite_call, joined_call};

use codes::say;
pub use file::{tapuhzel_keep_text, tapuhzel_read, tapuhzel_weak_text, tapuhzel_write};
use kinds::{Level, Station};
pub use spot::tapuhzel_weak;
pub use verdict::tapuhzel_check;

// The judge of a network of n stations and a list of lines.
pub fn tapuhzel_judge(n: usize, lines: &[u16], place: &mut usize, list: &mut u8) -> u8
    ensures call { (result, place.new, list.new) ≡ judge_call n lines.now }
{
    say(&judging::judge(n, lines), place, list)
}

// Prunes a network at a level: ranks, orders and the count of kept lines.
pub fn tapuhzel_prune(
    n: usize,
    level: usize,
    lines: &[u16],
    starts: &[u16],
    ranks: &mut [u8],
    orders: &mut [u16],
    kept: &mut usize,
    place: &mut usize,
    list: &mut u8,
) -> u8
    ensures call { ((result, place.new, list.new), kept.new, ranks.new, orders.new) ≡ prune_call n level lines.now starts.now ranks.old orders.old }
{
    let answer = prune::prune(n, Level(level), lines, starts, ranks, orders);
    *kept = answer.unwrap_or(0);
    say(&answer, place, list)
}

// Copies the kept lines, those of nonzero rank, and says how many.
pub fn tapuhzel_copy(
    lines: &[u16],
    ranks: &[u8],
    room: &mut [u16],
    count: &mut usize,
    place: &mut usize,
    list: &mut u8,
) -> u8
    ensures call { ((result, place.new, list.new), count.new, room.new) ≡ copy_call lines.now ranks.now room.old }
{
    let answer = kept::copy_kept(lines, ranks, room);
    *count = answer.unwrap_or(0);
    say(&answer, place, list)
}

// Unites two lists, and says how many lines the union has.
pub fn tapuhzel_unite(
    n: usize,
    first: &[u16],
    second: &[u16],
    room: &mut [u16],
    count: &mut usize,
    place: &mut usize,
    list: &mut u8,
) -> u8
    ensures call { ((result, place.new, list.new), count.new, room.new) ≡ unite_call n first.now second.now room.old }
{
    let answer = unite::unite(n, first, second, room);
    *count = answer.unwrap_or(0);
    say(&answer, place, list)
}

// Whether two stations are joined when others are taken away.
pub fn tapuhzel_joined(
    n: usize,
    lines: &[u16],
    away: &[u16],
    one: u16,
    two: u16,
    joined: &mut u8,
    place: &mut usize,
    list: &mut u8,
) -> u8
    ensures call { ((result, place.new, list.new), joined.new) ≡ joined_call n lines.now away.now one two }
{
    let answer = joined::joined(n, lines, away, Station(one), Station(two));
    *joined = u8::from(answer.unwrap_or(false));
    say(&answer, place, list)
}
