// The search for a weak spot for C: the spot's stations and the two that it parts as numbers.
ghost use Rattle.std.specs.Prelude.{◌≡◌};
ghost use Rattle.tapuhzel.specs.Calls.{weak_call};

use codes::{say, say_found};
use kinds::Level;

// The weak spot of a network at a level from 1 to 3.
pub fn tapuhzel_weak(
    n: usize,
    level: usize,
    lines: &[u16],
    weak: &mut u8,
    size: &mut u8,
    first: &mut u16,
    second: &mut u16,
    one: &mut u16,
    two: &mut u16,
    place: &mut usize,
    list: &mut u8,
) -> u8
    ensures call { ((result, place.new, list.new), weak.new, size.new, first.new, second.new, one.new, two.new) ≡ weak_call n level lines.now }
{
    let answer = weakness::find_weak_spot(n, Level(level), lines);
    say_found(answer.unwrap_or(None), weak, size, first, second, one, two);
    say(&answer, place, list)
}
