// The search for a weak spot as C links it.
ghost use Rattle.std.specs.Prelude.{◌≡◌};
ghost use Rattle.tapuhzel.specs.Calls.{weak_call};

// The weak spot of a network at a level from 1 to 3.
#[unsafe(no_mangle)]
pub extern "C" fn tapuhzel_weak(
    n: usize,
    level: usize,
    lines: &[u16],
    weak: &mut u8,
    size: &mut u8,
    first: &mut u16,
    second: &mut u16,
    one: &mut u16,
    two: &mut u16,
    place: &mut usize,
    list: &mut u8,
) -> u8
    ensures call { ((result, place.new, list.new), weak.new, size.new, first.new, second.new, one.new, two.new) ≡ weak_call n level lines.now }
{
    tapuhzel::tapuhzel_weak(
        n, level, lines, weak, size, first, second, one, two, place, list,
    )
}
