// The text that the programs write: of a pruned network, or of a refused input; and the words that every text is put together from.
#![tactic(auto)]

ghost use Rattle.std.specs.Prelude.{◌+◌, ◌*◌, ◌/◌, ◌≤◌, ◌<◌, ◌≡◌, [], ◌∷◌, length};
ghost use Rattle.kinds.specs.Refusals.{number_of, place_of};
ghost use Rattle.report.specs.Answers.{keep_short, refused_short, written_answer, written_over};
ghost use Rattle.report.specs.Text.{decimal, field, newline, header_text, line_text, row_text, kept_text, keep_text, refused_text};
ghost use Rattle.report.specs.Writing.{Puts};

use kinds::{Level, Place, Refusal, RefusalPlace, Round, Station, number_of, place_of};
use network::{Line, line_at, line_places, rank_at};

// The buffer has too little room, and is as it was.
#[derive(Clone, Copy)]
pub struct TooShort;

// Writes a byte at a position, and answers the position after it.
fn put_byte(text: &mut [u8], at: usize, byte: u8) -> usize
    requires { at < length text.old }
    ensures put { Puts text.old at (byte ∷ []) text.new result }
{
    text[at] = byte;
    at + 1
}

// Writes the bytes of a word.
pub fn put_word(text: &mut [u8], at: usize, word: &[u8]) -> usize
    requires { at + length word.now ≤ length text.old }
    ensures put { Puts text.old at word.now text.new result }
{
    for (i, byte) in word.iter().enumerate() {
        text[at + i] = *byte;
    }
    at + word.len()
}

// Writes the digits of a number: those of x / 10, then x % 10.
fn put_number(text: &mut [u8], at: usize, x: usize) -> usize
    requires { at + length (decimal x) ≤ length text.old }
    ensures put { Puts text.old at (decimal x) text.new result }
{
    if x < 10 {
        return put_byte(text, at, 48 + x as u8);
    }
    let next = put_number(text, at, x / 10);
    put_byte(text, next, 48 + (x % 10) as u8)
}

// Writes a word and a number.
pub fn put_field(text: &mut [u8], at: usize, word: &[u8], x: usize) -> usize
    requires { at + length (field word.now x) ≤ length text.old }
    ensures put { Puts text.old at (field word.now x) text.new result }
{
    let next = put_word(text, at, word);
    put_number(text, next, x)
}

// Ends a row.
pub fn put_newline(text: &mut [u8], at: usize) -> usize
    requires { at < length text.old }
    ensures put { Puts text.old at newline text.new result }
{
    put_byte(text, at, 10)
}

// Writes the header at the front.
fn put_header(text: &mut [u8], n: usize, level: Level, count: usize, kept: usize) -> usize
    requires { 128 ≤ length text.old }
    ensures put { Puts text.old 0 (header_text n level.0 count kept) text.new result }
    ensures most { result ≤ 128 }
{
    let stations = put_field(text, 0, b"stations ", n);
    let asked = put_field(text, stations, b" level ", level.0);
    let lines = put_field(text, asked, b" lines ", count);
    let last = put_field(text, lines, b" kept ", kept);
    put_newline(text, last)
}

// Writes the row of a kept line.
fn put_line(text: &mut [u8], at: usize, round: Round, place: Place, line: Line) -> usize
    requires { at + 64 ≤ length text.old }
    ensures put { Puts text.old at (line_text round.0 place.0 line.one.0 line.two.0) text.new result }
    ensures most { result ≤ at + 64 }
{
    let taken = put_field(text, at, b"round ", round.0 as usize);
    let placed = put_field(text, taken, b" line ", place.0 as usize);
    let left = put_field(text, placed, b" from ", line.one.0 as usize);
    let joined = put_field(text, left, b" to ", line.two.0 as usize);
    put_newline(text, joined)
}

// Writes the row of the line at a place, if its rank is not 0.
fn put_row(text: &mut [u8], at: usize, lines: &[u16], ranks: &[u8], place: Place) -> usize
    requires { (at + 64 ≤ length text.old) × (place.0 < length lines.now / 2) }
    ensures put { Puts text.old at (row_text lines.now ranks.now place.0) text.new result }
    ensures most { result ≤ at + 64 }
{
    let round = rank_at(ranks, place);
    if round.0 == 0 {
        return at;
    }
    let line = line_at(lines, place);
    put_line(text, at, round, place, line)
}

// Writes the rows of the kept lines, by place.
#[tactic(auto, unfolding(laws::specs::Fold::up_to, crate::specs::Text::kept_text), using(crate::proofs::Writing::puts_none, crate::proofs::Writing::puts_length))]
fn put_rows(text: &mut [u8], at: usize, lines: &[u16], ranks: &[u8]) -> usize
    requires { (length lines.now ≤ 16384) × (at + 64 * (length lines.now / 2) ≤ length text.old) }
    ensures put { Puts text.old at (kept_text lines.now ranks.now) text.new result }
{
    let mut next = at;
    for place in line_places(lines) {
        next = put_row(text, next, lines, ranks, place);
    }
    next
}

// Whether a buffer has too little room for what keep writes of these lines. So few lines keep the sum from wrapping.
#[tactic(auto, unfolding(crate::specs::Answers::keep_short))]
fn is_short(lines: &[u16], room: usize) -> bool
    ensures short { result ≡ keep_short lines.now room }
{
    16384 < lines.len() || room < 128 + 64 * (lines.len() / 2)
}

// Writes the row of a refusal at the front.
fn put_refusal(text: &mut [u8], number: usize, place: RefusalPlace) -> usize
    requires { 64 ≤ length text.old }
    ensures put { Puts text.old 0 (refused_text number place.0) text.new result }
{
    let refused = put_field(text, 0, b"refused ", number);
    let placed = put_field(text, refused, b" at ", place.0);
    put_newline(text, placed)
}

// Writes what keep writes of a pruned network, from the front of `text`. It is an error, and nothing changes, where `text` has less room
// than 128 bytes and 64 for each line, or where the list has over 16,384 numbers, which no network has.
pub fn write_kept(
    n: usize,
    level: Level,
    lines: &[u16],
    ranks: &[u8],
    kept: usize,
    text: &mut [u8],
) -> Result<usize, TooShort>
    ensures answer { result ≡ written_answer (keep_short lines.now (length text.old)) (keep_text n level.0 lines.now ranks.now kept) }
    ensures text { text.new ≡ written_over (keep_short lines.now (length text.old)) (keep_text n level.0 lines.now ranks.now kept) text.old }
{
    if is_short(lines, text.len()) {
        return Err(TooShort);
    }
    let at = put_header(text, n, level, lines.len() / 2, kept);
    let end = put_rows(text, at, lines, ranks);
    Ok(end)
}

// Writes the one row of a refused input, from the front of `text`. It is an error, and nothing changes, where `text` has less than 64 bytes.
pub fn write_refused(refusal: Refusal, text: &mut [u8]) -> Result<usize, TooShort>
    ensures answer { result ≡ written_answer (refused_short (length text.old)) (refused_text (number_of refusal) (place_of refusal)) }
    ensures text { text.new ≡ written_over (refused_short (length text.old)) (refused_text (number_of refusal) (place_of refusal)) text.old }
{
    if text.len() < 64 {
        return Err(TooShort);
    }
    let number = number_of(refusal) as usize;
    let place = place_of(refusal);
    let end = put_refusal(text, number, place);
    Ok(end)
}
