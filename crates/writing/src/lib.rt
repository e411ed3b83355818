// Writing a network file: its records put into a byte buffer, one after the other.
#![tactic(auto)]

ghost use Rattle.std.specs.Prelude.{◌≡◌, ◌+◌, ◌*◌, ◌/◌, ◌≤◌, length, ltb};
ghost use Rattle.reading.specs.Numbers.{number_bytes};
ghost use Rattle.reading.specs.Parts.{gathered, placed};
ghost use Rattle.reading.specs.Reading.{offset_after};
ghost use Rattle.writing.specs.Writing.{one_record, two_record, line_record, start_record, file_bytes, file_length};
ghost use Rattle.writing.specs.Answers.{WriteAllows};

use kinds::{Level, Offset, Refusal};
use reading::{Counts, EN, LN, NW, RT};
use request::judge_request;

// Whether a byte buffer is shorter than a file with these counts. No product is made that could be too large.
fn is_short(counts: Counts, room: usize) -> bool
    ensures short { result ≡ ltb room (offset_after counts.lines counts.starts + 4) }
{
    let m = counts.lines;
    let s = counts.starts;
    if room < 10 {
        return true;
    }
    let left = room - 10;
    if left / 6 < m {
        return true;
    }
    (left - 6 * m) / 4 < s
}

// Puts a number in at an offset: 16 bits, low byte first.
#[tactic(auto, unfolding(reading::specs::Parts::placed))]
fn put_number(bytes: &mut [u8], offset: Offset, number: u16)
    requires { offset.0 + 2 ≤ length bytes.old }
    ensures bytes { bytes.new ≡ placed bytes.old offset.0 (number_bytes number) }
{
    let at = offset.0;
    bytes[at..at + 2].copy_from_slice(&number.to_le_bytes());
}

// Puts in a record of one number after its mark, as RT and EN.
fn put_one(bytes: &mut [u8], offset: Offset, mark: u16, number: u16)
    requires { offset.0 + 4 ≤ length bytes.old }
    ensures bytes { bytes.new ≡ placed bytes.old offset.0 (one_record mark number) }
{
    let at = offset.0;
    put_number(bytes, Offset(at), mark);
    put_number(bytes, Offset(at + 2), number);
}

// Puts in a record of two numbers after its mark, as NW and LN.
fn put_two(bytes: &mut [u8], offset: Offset, mark: u16, one: u16, two: u16)
    requires { offset.0 + 6 ≤ length bytes.old }
    ensures bytes { bytes.new ≡ placed bytes.old offset.0 (two_record mark one two) }
{
    let at = offset.0;
    put_one(bytes, Offset(at), mark, one);
    put_number(bytes, Offset(at + 4), two);
}

// Writes the LN records, after NW.
fn write_lines(lines: &[u16], bytes: &mut [u8])
    requires { 6 + 6 * (length lines.now / 2) ≤ length bytes.old }
    ensures bytes { bytes.new ≡ placed bytes.old 6 (gathered (line_record lines.now) (length lines.now / 2)) }
{
    for p in 0..lines.len() / 2 {
        put_two(bytes, Offset(6 + 6 * p), LN, lines[2 * p], lines[2 * p + 1]);
    }
}

// Writes the RT records, after some LN records.
fn write_starts(count: usize, starts: &[u16], bytes: &mut [u8])
    requires { offset_after count (length starts.now) ≤ length bytes.old }
    ensures bytes { bytes.new ≡ placed bytes.old (6 + 6 * count) (gathered (start_record starts.now) (length starts.now)) }
{
    for (q, start) in starts.iter().enumerate() {
        put_one(bytes, Offset(6 + 6 * count + 4 * q), RT, *start);
    }
}

// Writes the bytes of a network that was judged; how many they are.
fn write_file(n: usize, level: Level, lines: &[u16], starts: &[u16], bytes: &mut [u8]) -> usize
    requires { (n ≤ 1024) × (level.0 ≤ 16) × (length lines.now ≤ 16384) × (file_length lines.now starts.now ≤ length bytes.old) }
    ensures count { result ≡ file_length lines.now starts.now }
    ensures bytes { bytes.new ≡ placed bytes.old 0 (file_bytes n level.0 lines.now starts.now) }
{
    let k = level.0 as u16;
    let m = lines.len() / 2;
    put_two(bytes, Offset(0), NW, n as u16, k);
    write_lines(lines, bytes);
    write_starts(m, starts, bytes);
    let end = 6 + 6 * m + 4 * starts.len();
    put_one(bytes, Offset(end), EN, m as u16);
    end + 4
}

// Writes a network as a file: it refuses as pruning does, with the byte buffer as the only room.
#[tactic(auto, unfolding(crate::specs::Writing::write_answer, crate::specs::Writing::bytes_after))]
pub fn write(
    n: usize,
    level: Level,
    lines: &[u16],
    starts: &[u16],
    bytes: &mut [u8],
) -> Result<usize, Refusal>
    ensures allowed { WriteAllows n level.0 lines.now starts.now bytes.old result bytes.new }
{
    let counts = Counts {
        lines: lines.len() / 2,
        starts: starts.len(),
    };
    let short = is_short(counts, bytes.len());
    judge_request(n, level, lines, starts, short)?;
    Ok(write_file(n, level, lines, starts, bytes))
}
