// The network file for C, and what the programs write of one.
ghost use Rattle.std.specs.Prelude.{◌≡◌};
ghost use Rattle.programs.specs.Keep.{keep_output};
ghost use Rattle.programs.specs.Weak.{weak_output};
ghost use Rattle.tapuhzel.specs.Calls.{read_call, write_call, text_call};

use codes::{say, say_written};
use kinds::Level;
use reading::{Counts, Found};

// What C is told of a file that is refused.
const NOTHING: Found = Found {
    stations: 0,
    level: Level(0),
    counts: Counts {
        lines: 0,
        starts: 0,
    },
};

// Reads a network file into lent buffers, and says how many stations, lines and starts it has and its level.
pub fn tapuhzel_read(
    bytes: &[u8],
    lines: &mut [u16],
    starts: &mut [u16],
    n: &mut usize,
    level: &mut usize,
    m: &mut usize,
    s: &mut usize,
    place: &mut usize,
    list: &mut u8,
) -> u8
    ensures call { ((result, place.new, list.new), n.new, level.new, m.new, s.new, lines.new, starts.new) ≡ read_call bytes.now lines.old starts.old }
{
    let answer = reading::read(bytes, lines, starts);
    let found = answer.unwrap_or(NOTHING);
    *n = found.stations;
    *level = found.level.0;
    *m = found.counts.lines;
    *s = found.counts.starts;
    say(&answer, place, list)
}

// Writes a network as a file, and says how many bytes it has.
pub fn tapuhzel_write(
    n: usize,
    level: usize,
    lines: &[u16],
    starts: &[u16],
    bytes: &mut [u8],
    count: &mut usize,
    place: &mut usize,
    list: &mut u8,
) -> u8
    ensures call { ((result, place.new, list.new), count.new, bytes.new) ≡ write_call n level lines.now starts.now bytes.old }
{
    let answer = writing::write(n, Level(level), lines, starts, bytes);
    *count = answer.unwrap_or(0);
    say(&answer, place, list)
}

// What keep writes of a file's bytes.
pub fn tapuhzel_keep_text(bytes: &[u8], text: &mut [u8], count: &mut usize) -> u8
    ensures call { (result, count.new, text.new) ≡ text_call 524416 (keep_output bytes.now) text.old }
{
    let written = programs::keep_text(bytes, text);
    say_written(written, count)
}

// What weak writes of a file's bytes.
pub fn tapuhzel_weak_text(bytes: &[u8], text: &mut [u8], count: &mut usize) -> u8
    ensures call { (result, count.new, text.new) ≡ text_call 256 (weak_output bytes.now) text.old }
{
    let written = programs::weak_text(bytes, text);
    say_written(written, count)
}
