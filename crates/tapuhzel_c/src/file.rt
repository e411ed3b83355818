// The network file, and what the programs write of one, as C links them.
ghost use Rattle.std.specs.Prelude.{◌≡◌};
ghost use Rattle.programs.specs.Keep.{keep_output};
ghost use Rattle.programs.specs.Weak.{weak_output};
ghost use Rattle.tapuhzel.specs.Calls.{read_call, write_call, text_call};

// Reads a network file into lent buffers, and says how many stations, lines and starts it has and its level.
#[unsafe(no_mangle)]
pub extern "C" fn tapuhzel_read(
    bytes: &[u8],
    lines: &mut [u16],
    starts: &mut [u16],
    n: &mut usize,
    level: &mut usize,
    m: &mut usize,
    s: &mut usize,
    place: &mut usize,
    list: &mut u8,
) -> u8
    ensures call { ((result, place.new, list.new), n.new, level.new, m.new, s.new, lines.new, starts.new) ≡ read_call bytes.now lines.old starts.old }
{
    tapuhzel::tapuhzel_read(bytes, lines, starts, n, level, m, s, place, list)
}

// Writes a network as a file, and says how many bytes it has.
#[unsafe(no_mangle)]
pub extern "C" fn tapuhzel_write(
    n: usize,
    level: usize,
    lines: &[u16],
    starts: &[u16],
    bytes: &mut [u8],
    count: &mut usize,
    place: &mut usize,
    list: &mut u8,
) -> u8
    ensures call { ((result, place.new, list.new), count.new, bytes.new) ≡ write_call n level lines.now starts.now bytes.old }
{
    tapuhzel::tapuhzel_write(n, level, lines, starts, bytes, count, place, list)
}

// What keep writes of a file's bytes.
#[unsafe(no_mangle)]
pub extern "C" fn tapuhzel_keep_text(bytes: &[u8], text: &mut [u8], count: &mut usize) -> u8
    ensures call { (result, count.new, text.new) ≡ text_call 524416 (keep_output bytes.now) text.old }
{
    tapuhzel::tapuhzel_keep_text(bytes, text, count)
}

// What weak writes of a file's bytes.
#[unsafe(no_mangle)]
pub extern "C" fn tapuhzel_weak_text(bytes: &[u8], text: &mut [u8], count: &mut usize) -> u8
    ensures call { (result, count.new, text.new) ≡ text_call 256 (weak_output bytes.now) text.old }
{
    tapuhzel::tapuhzel_weak_text(bytes, text, count)
}
