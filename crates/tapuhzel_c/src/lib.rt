// The C face as C links it: each routine of `tapuhzel` under its own name, with its contract, since a static library exports its own functions alone.
#![tactic(auto)]

mod verdict; // verdict.rt: the check of forests
mod spot; // spot.rt: weak spots
mod file; // file.rt: the network file, and the texts of the programs

ghost use Rattle.std.specs.Prelude.{◌≡◌};
ghost use Rattle.tapuhzel.specs.Calls.{judge_call, prune_call, copy_call, unite_call, joined_call};

// The judge of a network of n stations and a list of lines.
#[unsafe(no_mangle)]
pub extern "C" fn tapuhzel_judge(n: usize, lines: &[u16], place: &mut usize, list: &mut u8) -> u8
    ensures call { (result, place.new, list.new) ≡ judge_call n lines.now }
{
    tapuhzel::tapuhzel_judge(n, lines, place, list)
}

// Prunes a network at a level: ranks, orders and the count of kept lines.
#[unsafe(no_mangle)]
pub extern "C" fn tapuhzel_prune(
    n: usize,
    level: usize,
    lines: &[u16],
    starts: &[u16],
    ranks: &mut [u8],
    orders: &mut [u16],
    kept: &mut usize,
    place: &mut usize,
    list: &mut u8,
) -> u8
    ensures call { ((result, place.new, list.new), kept.new, ranks.new, orders.new) ≡ prune_call n level lines.now starts.now ranks.old orders.old }
{
    tapuhzel::tapuhzel_prune(n, level, lines, starts, ranks, orders, kept, place, list)
}

// Copies the kept lines, those of nonzero rank, and says how many.
#[unsafe(no_mangle)]
pub extern "C" fn tapuhzel_copy(
    lines: &[u16],
    ranks: &[u8],
    room: &mut [u16],
    count: &mut usize,
    place: &mut usize,
    list: &mut u8,
) -> u8
    ensures call { ((result, place.new, list.new), count.new, room.new) ≡ copy_call lines.now ranks.now room.old }
{
    tapuhzel::tapuhzel_copy(lines, ranks, room, count, place, list)
}

// Unites two lists, and says how many lines the union has.
#[unsafe(no_mangle)]
pub extern "C" fn tapuhzel_unite(
    n: usize,
    first: &[u16],
    second: &[u16],
    room: &mut [u16],
    count: &mut usize,
    place: &mut usize,
    list: &mut u8,
) -> u8
    ensures call { ((result, place.new, list.new), count.new, room.new) ≡ unite_call n first.now second.now room.old }
{
    tapuhzel::tapuhzel_unite(n, first, second, room, count, place, list)
}

// Whether two stations are joined when others are taken away.
#[unsafe(no_mangle)]
pub extern "C" fn tapuhzel_joined(
    n: usize,
    lines: &[u16],
    away: &[u16],
    one: u16,
    two: u16,
    joined: &mut u8,
    place: &mut usize,
    list: &mut u8,
) -> u8
    ensures call { ((result, place.new, list.new), joined.new) ≡ joined_call n lines.now away.now one two }
{
    tapuhzel::tapuhzel_joined(n, lines, away, one, two, joined, place, list)
}
