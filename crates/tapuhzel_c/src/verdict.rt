// The check of forests as C links it.
ghost use Rattle.std.specs.Prelude.{◌≡◌};
ghost use Rattle.tapuhzel.specs.Calls.{check_call};

// The check of forests, over ranks and orders from anywhere.
#[unsafe(no_mangle)]
pub extern "C" fn tapuhzel_check(
    n: usize,
    level: usize,
    lines: &[u16],
    ranks: &[u8],
    orders: &[u16],
    kind: &mut u8,
    round: &mut u8,
    at: &mut usize,
    place: &mut usize,
    list: &mut u8,
) -> u8
    ensures call { ((result, place.new, list.new), kind.new, round.new, at.new) ≡ check_call n level lines.now ranks.now orders.now }
{
    tapuhzel::tapuhzel_check(n, level, lines, ranks, orders, kind, round, at, place, list)
}
