// What the programs write, from the bytes of a file: so that a program only reads and writes.
#![tactic(auto)]

ghost use Rattle.std.specs.Prelude.{◌≡◌, false, ◌*◌, ◌/◌, ◌≤◌, length};
ghost use Rattle.kinds.specs.Answers.{Answer.given};
ghost use Rattle.reading.specs.Reading.{file_read};
ghost use Rattle.reading.specs.Answers.{facts_of};
ghost use Rattle.report.specs.Answers.{written_answer, written_over};
ghost use Rattle.weakness.specs.Search.{weak_answer};
ghost use Rattle.programs.specs.Keep.{network_text, keep_output};
ghost use Rattle.programs.specs.Weak.{searched_text, weak_output};
ghost use Rattle.programs.specs.Texts.{TextAllows};
ghost use Rattle.programs.specs.Programs.{output_of, room_of};

use kinds::Level;
use ranks::prune_ranks;
use reading::{Found, copy_network, read_file};
use report::{TooShort, write_kept, write_refused};
use request::judge_request;
use standing::write_standing;
use weakness::find_weak_spot;

// The most stations of a small file, which is answered with small tables.
const FEW_STATIONS: usize = 64;

// The most lines of a small file: the small tables hold as many.
const FEW_LINES: usize = 256;

// The programs: which lines are kept, and whether the network stands.
#[derive(Clone, Copy)]
enum Program {
    Keep,
    Weak,
}

impl Program {
    // The bytes that a program's text needs room for.
    fn room(self) -> usize
        ensures room { result ≡ room_of self }
    {
        match self {
            Program::Keep => 524416,
            Program::Weak => 256,
        }
    }
}

// Prunes a network and writes what is kept, or why it is refused. The judge's set of pairs is gone again before the ranks are made.
fn keep_network(
    n: usize,
    level: Level,
    lines: &[u16],
    starts: &[u16],
    ranks: &mut [u8],
    text: &mut [u8],
) -> Result<usize, TooShort>
    requires { (length ranks.old ≡ length lines.now / 2) × (length lines.now ≤ 16384) × (524416 ≤ length text.old) }
    ensures answer { result ≡ written_answer false (network_text n level.0 lines.now starts.now) }
    ensures text { text.new ≡ written_over false (network_text n level.0 lines.now starts.now) text.old }
{
    if let Err(refusal) = judge_request(n, level, lines, starts, false) {
        return write_refused(refusal, text);
    }
    let kept = prune_ranks(n, level, lines, starts, ranks);
    write_kept(n, level, lines, ranks, kept, text)
}

// Searches a network for a weak spot and writes what is found, or why it is refused.
fn weak_network(n: usize, level: Level, lines: &[u16], text: &mut [u8]) -> Result<usize, TooShort>
    requires { 256 ≤ length text.old }
    ensures answer { result ≡ written_answer false (searched_text n level.0 (length lines.now / 2) (weak_answer n level.0 lines.now)) }
    ensures text { text.new ≡ written_over false (searched_text n level.0 (length lines.now / 2) (weak_answer n level.0 lines.now)) text.old }
{
    match find_weak_spot(n, level, lines) {
        Ok(found) => write_standing(n, level, lines.len() / 2, found, text),
        Err(refusal) => write_refused(refusal, text),
    }
}

// What a program writes of a file that was read, with buffers for up to LINES lines and their NUMBERS. It stays a call, so that a small file
// takes no room on the stack for the buffers of a large one.
#[inline(never)]
fn say_with<const LINES: usize, const NUMBERS: usize>(
    program: Program,
    bytes: &[u8],
    found: Found,
    text: &mut [u8],
) -> Result<usize, TooShort>
    requires found { file_read bytes.now ≡ given (facts_of found) }
    requires room { (found.counts.lines ≤ LINES) × (2 * LINES ≤ NUMBERS) × (room_of program ≤ length text.old) }
    requires stack { NUMBERS ≤ 16384 }
    ensures answer { result ≡ written_answer false (output_of program bytes.now) }
    ensures text { text.new ≡ written_over false (output_of program bytes.now) text.old }
{
    let mut lines = [0u16; NUMBERS];
    let mut starts = [0u16; 16];
    copy_network(bytes, found.counts, &mut lines, &mut starts);
    let n = found.stations;
    let level = found.level;
    let count = found.counts.lines;
    let size = 2 * count;
    let rounds = found.counts.starts;
    match program {
        Program::Keep => {
            let mut ranks = [0u8; LINES];
            keep_network(
                n,
                level,
                &lines[..size],
                &starts[..rounds],
                &mut ranks[..count],
                text,
            )
        }
        Program::Weak => weak_network(n, level, &lines[..size], text),
    }
}

// What a program writes of the bytes of a file that it was given room for, with buffers as large as it needs.
fn say(program: Program, bytes: &[u8], text: &mut [u8]) -> Result<usize, TooShort>
    ensures allowed { TextAllows (room_of program) (output_of program bytes.now) text.old result text.new }
{
    if text.len() < program.room() {
        return Err(TooShort);
    }
    match read_file(bytes) {
        Ok(found) => {
            if found.stations <= FEW_STATIONS && found.counts.lines <= FEW_LINES {
                say_with::<256, 512>(program, bytes, found, text)
            } else {
                say_with::<8192, 16384>(program, bytes, found, text)
            }
        }
        Err(refusal) => write_refused(refusal, text),
    }
}

// What the program keep writes of the bytes of a file, from the front of `text`, which needs 524,416 bytes.
pub fn keep_text(bytes: &[u8], text: &mut [u8]) -> Result<usize, TooShort>
    ensures allowed { TextAllows 524416 (keep_output bytes.now) text.old result text.new }
{
    say(Program::Keep, bytes, text)
}

// What the program weak writes of the bytes of a file, from the front of `text`, which needs 256 bytes.
pub fn weak_text(bytes: &[u8], text: &mut [u8]) -> Result<usize, TooShort>
    ensures allowed { TextAllows 256 (weak_output bytes.now) text.old result text.new }
{
    say(Program::Weak, bytes, text)
}
